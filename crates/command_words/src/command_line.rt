//! The commands of the command line, as `clap` is told of them.
ghost use Rattle.std.specs.Prelude.{◌≡◌, IfOk, IsOkAnd, false};
ghost use Rattle.clap.specs.Simple.{app_of};
ghost use Rattle.clap.specs.Walk.{rule_of};
ghost use Rattle.clap.specs.Words.{AddsSubcommand};
ghost use Rattle.clap.specs.declared.builder.command.Command.TheViews.{out-Command as fields_of};
ghost use Rattle.command_words.specs.CommandLine.{bare_app, check_app, drill_app, folder_app};
ghost use Rattle.command_words.specs.CommandLine.{host_app, init_app, journal_app, named_rule};
ghost use Rattle.command_words.specs.CommandLine.{pack_app, pipe_app, repeated_rule, replay_app};
ghost use Rattle.command_words.specs.CommandLine.{required_rule, run_app, serve_app, served_app};
ghost use Rattle.command_words.specs.CommandLine.{solo_app, storyhost_app};

use crate::help::VERSION;
use clap::{Arg, ArgAction, Command};
use std::alloc::{AllocError, Global};

/// An argument that has to be given.
fn required_argument<'w>(alloc: Global, id: &'w str) -> Arg<'w>
    ensures rule { rule_of result ≡ required_rule id.entry.now }
    ensures local { result.global ≡ false }
{
    Arg::new(alloc, id).required(true)
}

/// An argument that has to be given, once or more often.
fn repeated_argument<'w>(alloc: Global, id: &'w str) -> Arg<'w>
    ensures rule { rule_of result ≡ repeated_rule id.entry.now }
    ensures local { result.global ≡ false }
{
    Arg::new(alloc, id).required(true).action(ArgAction::Append)
}

/// An argument that may be given behind its name.
fn named_argument<'w>(alloc: Global, id: &'w str) -> Arg<'w>
    ensures rule { rule_of result ≡ named_rule id.entry.now }
    ensures local { result.global ≡ false }
{
    Arg::new(alloc, id).long(id)
}

/// `run FILE [--budget N]`.
fn run_command<'w>(alloc: Global) -> Result<Command<'w>, AllocError>
    ensures app { IfOk result (λ c. app_of c ≡ run_app) }
    ensures local { IfOk result (λ c. (fields_of c).has_globals ≡ false) }
{
    Command::new(alloc, "run")
        .arg(required_argument(alloc, "FILE"))?
        .arg(named_argument(alloc, "budget"))
}

/// `check FILE`.
fn check_command<'w>(alloc: Global) -> Result<Command<'w>, AllocError>
    ensures app { IfOk result (λ c. app_of c ≡ check_app) }
    ensures local { IfOk result (λ c. (fields_of c).has_globals ≡ false) }
{
    Command::new(alloc, "check").arg(required_argument(alloc, "FILE"))
}

/// `init DIR`.
fn init_command<'w>(alloc: Global) -> Result<Command<'w>, AllocError>
    ensures app { IfOk result (λ c. app_of c ≡ init_app) }
    ensures local { IfOk result (λ c. (fields_of c).has_globals ≡ false) }
{
    Command::new(alloc, "init").arg(required_argument(alloc, "DIR"))
}

/// `pipe DIR STORY.. [--budget N]`.
fn pipe_command<'w>(alloc: Global) -> Result<Command<'w>, AllocError>
    ensures app { IfOk result (λ c. app_of c ≡ pipe_app) }
    ensures local { IfOk result (λ c. (fields_of c).has_globals ≡ false) }
{
    Command::new(alloc, "pipe")
        .arg(required_argument(alloc, "DIR"))?
        .arg(repeated_argument(alloc, "STORY"))?
        .arg(named_argument(alloc, "budget"))
}

/// `serve DIR PORT WORKERS`, without what follows.
fn served_command<'w>(alloc: Global) -> Result<Command<'w>, AllocError>
    ensures app { IfOk result (λ c. app_of c ≡ served_app) }
    ensures local { IfOk result (λ c. (fields_of c).has_globals ≡ false) }
{
    Command::new(alloc, "serve")
        .arg(required_argument(alloc, "DIR"))?
        .arg(required_argument(alloc, "PORT"))?
        .arg(required_argument(alloc, "WORKERS"))
}

/// `serve DIR PORT WORKERS STORY.. [--budget N] [--links K]`.
fn serve_command<'w>(alloc: Global) -> Result<Command<'w>, AllocError>
    ensures app { IfOk result (λ c. app_of c ≡ serve_app) }
    ensures local { IfOk result (λ c. (fields_of c).has_globals ≡ false) }
{
    served_command(alloc)?
        .arg(repeated_argument(alloc, "STORY"))?
        .arg(named_argument(alloc, "budget"))?
        .arg(named_argument(alloc, "links"))
}

/// `replay DIR STORY..`.
fn replay_command<'w>(alloc: Global) -> Result<Command<'w>, AllocError>
    ensures app { IfOk result (λ c. app_of c ≡ replay_app) }
    ensures local { IfOk result (λ c. (fields_of c).has_globals ≡ false) }
{
    Command::new(alloc, "replay")
        .arg(required_argument(alloc, "DIR"))?
        .arg(repeated_argument(alloc, "STORY"))
}

/// `pack OLD NEW`.
fn pack_command<'w>(alloc: Global) -> Result<Command<'w>, AllocError>
    ensures app { IfOk result (λ c. app_of c ≡ pack_app) }
    ensures local { IfOk result (λ c. (fields_of c).has_globals ≡ false) }
{
    Command::new(alloc, "pack")
        .arg(required_argument(alloc, "OLD"))?
        .arg(required_argument(alloc, "NEW"))
}

/// `drill N`.
fn drill_command<'w>(alloc: Global) -> Result<Command<'w>, AllocError>
    ensures app { IfOk result (λ c. app_of c ≡ drill_app) }
    ensures local { IfOk result (λ c. (fields_of c).has_globals ≡ false) }
{
    Command::new(alloc, "drill").arg(required_argument(alloc, "N"))
}

/// The program without its commands.
fn bare_command<'w>(alloc: Global) -> Command<'w>
    ensures { app_of result ≡ bare_app }
{
    Command::new(alloc, "storyhost")
        .no_binary_name(true)
        .disable_help_subcommand(true)
        .subcommand_required(true)
        .version(VERSION)
}

/// The program with a command more, where there was memory to make that.
fn with_command<'w>(
    program: Command<'w>,
    command: Result<Command<'w>, AllocError>,
) -> Result<Command<'w>, AllocError>
    ensures { IfOk result (λ new. IsOkAnd command.entry (λ one.
        AddsSubcommand program.entry one new)) }
{
    program.subcommand(command?)
}

/// The program with its commands over one story.
fn solo_command<'w>(alloc: Global) -> Result<Command<'w>, AllocError>
    ensures { IfOk result (λ c. app_of c ≡ solo_app) }
{
    let program = with_command(bare_command(alloc), run_command(alloc))?;
    with_command(program, check_command(alloc))
}

/// The program with these and the commands over a folder and one connection.
fn folder_command<'w>(alloc: Global) -> Result<Command<'w>, AllocError>
    ensures { IfOk result (λ c. app_of c ≡ folder_app) }
{
    let solo = solo_command(alloc)?;
    let program = with_command(solo, init_command(alloc))?;
    with_command(program, pipe_command(alloc))
}

/// The program with these, and the command over links.
fn host_command<'w>(alloc: Global) -> Result<Command<'w>, AllocError>
    ensures { IfOk result (λ c. app_of c ≡ host_app) }
{
    let folder = folder_command(alloc)?;
    with_command(folder, serve_command(alloc))
}

/// The program with these, and the commands over a journal that no host holds.
fn journal_command<'w>(alloc: Global) -> Result<Command<'w>, AllocError>
    ensures { IfOk result (λ c. app_of c ≡ journal_app) }
{
    let host = host_command(alloc)?;
    let program = with_command(host, replay_command(alloc))?;
    with_command(program, pack_command(alloc))
}

/// The program with its commands.
pub fn storyhost<'w>(alloc: Global) -> Result<Command<'w>, AllocError>
    ensures { IfOk result (λ c. app_of c ≡ storyhost_app) }
{
    let journal = journal_command(alloc)?;
    with_command(journal, drill_command(alloc))
}
