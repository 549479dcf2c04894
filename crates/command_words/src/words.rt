//! What the words of the command line ask for.
ghost use Rattle.std.specs.Prelude.{◌≡◌, IfOk, IfSome, Some, codes, map, option_and_then};
ghost use Rattle.std.specs.Prelude.{string_bytes};
ghost use Rattle.std.specs.Option.{option_map};
ghost use Rattle.clap.specs.Matches.{found_of};
ghost use Rattle.clap.specs.Simple.{subcommand_rows_of};
ghost use Rattle.clap.specs.Walk.{first_of, rows_of};
ghost use Rattle.command_words.specs.Help.{topic_named, topic_of};
ghost use Rattle.command_words.specs.Numbers.{IsWorkerCount};
ghost use Rattle.command_words.specs.Packing.{IsNoPacking};
ghost use Rattle.command_words.specs.Serving.{HasWorkers, port_in, serving_in, workers_in};
ghost use Rattle.command_words.specs.Words.{command_asked, asked_alone, asked_by, asked_in};
ghost use Rattle.command_words.specs.Words.{asked_on, asked_packing, asked_serving, asked_with};
ghost use Rattle.command_words.specs.Words.{drill_in, folder_in, shown_by};

use crate::command::Command;
use crate::command_line::storyhost;
use crate::help::Topic;
use crate::numbers::{BUDGET, budget_given, drill_number_of, links_given, port_of, workers_of};
use clap::ArgMatches;
use clap::error::ErrorKind;
use std::alloc::{AllocError, Global};

/// The most stories of a command.
const MOST_STORIES: usize = 64;

/// How links are served.
#[derive(Clone, Copy, Debug, PartialEq, Eq)]
pub struct Serving {
    /// The port of this machine, or 0 for one that is free.
    pub port: u16,
    /// How many workers serve.
    pub workers: u8,
    /// After how many links no more are taken.
    pub links: u32,
}

/// What the program does.
#[derive(Clone, Copy, Debug, PartialEq, Eq)]
pub enum Action {
    /// Plays one story alone.
    Run,
    /// Tells what the header of one story says.
    Check,
    /// Begins the files of a folder.
    Init,
    /// Answers the numbered requests of one connection, from the journal of a folder.
    Pipe,
    /// Answers the numbered requests of links to a port, from the journal of a folder.
    Serve(Serving),
    /// Writes what the players of a folder were shown, from its journal.
    Replay,
    /// Begins a folder with the games of another one that are in use.
    Pack,
    /// Plays eight sessions by the scripts of a number.
    Drill(u64),
    /// Shows help.
    Help(Topic),
    /// Shows the program's version.
    Version,
}

/// The first word that is given for an argument.
fn word_given<'w>(matches: &ArgMatches<'w>, id: &str) -> Option<&'w str>
    ensures { option_map (λ w. w.now) result
        ≡ first_of id.now (rows_of (found_of matches.now)) }
{
    matches.get_str(id)
}

/// The folder that is given.
fn folder_in<'w>(matches: &ArgMatches<'w>) -> Option<&'w str>
    ensures { option_map (λ f. f.now) result ≡ folder_in (rows_of (found_of matches.now)) }
{
    word_given(matches, "DIR")
}

/// The port that is given.
fn port_in(matches: &ArgMatches<'_>) -> Option<u16>
    ensures { result ≡ port_in (rows_of (found_of matches.now)) }
{
    match word_given(matches, "PORT") {
        Some(word) => port_of(word),
        None => None,
    }
}

/// The number of workers that is given.
fn workers_in(matches: &ArgMatches<'_>) -> Option<u8>
    ensures value { result ≡ workers_in (rows_of (found_of matches.now)) }
    ensures range { IfSome result IsWorkerCount }
{
    match word_given(matches, "WORKERS") {
        Some(word) => workers_of(word),
        None => None,
    }
}

/// How links are to be served, by what is given.
fn serving_in(matches: &ArgMatches<'_>) -> Option<Serving>
    ensures value { result ≡ serving_in (rows_of (found_of matches.now)) }
    ensures range { IfSome result (λ serving. IsWorkerCount serving.workers) }
{
    let Some(port) = port_in(matches) else {
        return None;
    };
    let Some(workers) = workers_in(matches) else {
        return None;
    };
    match links_given(word_given(matches, "links")) {
        Some(links) => Some(Serving {
            port,
            workers,
            links,
        }),
        None => None,
    }
}

/// The drill of the number that is given.
fn drill_in(matches: &ArgMatches<'_>) -> Option<Action>
    ensures value { result ≡ drill_in (rows_of (found_of matches.now)) }
    ensures range { IfSome result HasWorkers }
    ensures alone { IfSome result IsNoPacking }
{
    let Some(word) = word_given(matches, "N") else {
        return None;
    };
    match drill_number_of(word) {
        Some(number) => Some(Action::Drill(number)),
        None => None,
    }
}

/// What an action is given that needs neither a folder nor files.
fn command_alone<'w>(alloc: Global, action: Option<Action>) -> Option<Command<'w>>
    requires workers { IfSome action HasWorkers }
    requires alone { IfSome action IsNoPacking }
    ensures { option_map command_asked result ≡ asked_alone action }
{
    match action {
        Some(action) => Some(Command {
            action,
            folder: "",
            into: "",
            names: Vec::new(alloc),
            budget: BUDGET,
        }),
        None => None,
    }
}

/// What an action is given: a folder alone.
fn command_on<'w>(alloc: Global, action: Action, folder: Option<&'w str>) -> Option<Command<'w>>
    requires workers { HasWorkers action }
    requires alone { IsNoPacking action }
    ensures { option_map command_asked result
        ≡ asked_on action (option_map (λ f. f.now) folder.entry) }
{
    match folder {
        Some(folder) => Some(Command {
            action,
            folder,
            into: "",
            names: Vec::new(alloc),
            budget: BUDGET,
        }),
        None => None,
    }
}

/// What `pack` is given: two folders that aren't named by the same word.
fn command_packing<'w>(alloc: Global, matches: &ArgMatches<'w>) -> Option<Command<'w>>
    ensures { option_map command_asked result
        ≡ asked_packing (rows_of (found_of matches.now)) }
{
    let Some(old) = word_given(matches, "OLD") else {
        return None;
    };
    let Some(new) = word_given(matches, "NEW") else {
        return None;
    };
    if old == new {
        return None;
    }
    Some(Command {
        action: Action::Pack,
        folder: old,
        into: new,
        names: Vec::new(alloc),
        budget: BUDGET,
    })
}

/// What an action is given: the folder, the files of an argument, and the budget.
fn command_with<'w>(
    alloc: Global,
    action: Action,
    folder: &'w str,
    files: &str,
    matches: &ArgMatches<'w>,
) -> Result<Option<Command<'w>>, AllocError>
    requires workers { HasWorkers action }
    requires alone { IsNoPacking action }
    ensures { IfOk result (λ command. option_map command_asked command
        ≡ asked_with action (Some folder.now) files.now
        (rows_of (found_of matches.now))) }
{
    let Some(given) = matches.get_strs(files) else {
        return Ok(None);
    };
    let Some(budget) = budget_given(word_given(matches, "budget")) else {
        return Ok(None);
    };
    if given.len() > MOST_STORIES {
        return Ok(None);
    }
    let names = given.to_vec(alloc)?;
    Ok(Some(Command {
        action,
        folder,
        into: "",
        names,
        budget,
    }))
}

/// What an action is given: the folder, its stories, and the budget.
fn command_over<'w>(
    alloc: Global,
    action: Action,
    matches: &ArgMatches<'w>,
) -> Result<Option<Command<'w>>, AllocError>
    requires workers { HasWorkers action }
    requires alone { IsNoPacking action }
    ensures { IfOk result (λ command. option_map command_asked command
        ≡ asked_with action (folder_in (rows_of (found_of matches.now))) (codes "STORY")
        (rows_of (found_of matches.now))) }
{
    match folder_in(matches) {
        Some(folder) => command_with(alloc, action, folder, "STORY", matches),
        None => Ok(None),
    }
}

/// What `serve` is given.
fn command_serving<'w>(
    alloc: Global,
    matches: &ArgMatches<'w>,
) -> Result<Option<Command<'w>>, AllocError>
    ensures { IfOk result (λ command. option_map command_asked command
        ≡ asked_serving (serving_in (rows_of (found_of matches.now)))
        (rows_of (found_of matches.now))) }
{
    match serving_in(matches) {
        Some(serving) => command_over(alloc, Action::Serve(serving), matches),
        None => Ok(None),
    }
}

/// What a command of the program asks for.
fn command_in<'w>(
    alloc: Global,
    matches: &ArgMatches<'w>,
) -> Result<Option<Command<'w>>, AllocError>
    ensures { IfOk result (λ command. option_map command_asked command
        ≡ option_and_then asked_in (subcommand_rows_of matches.now)) }
{
    match matches.subcommand() {
        Some((name, given)) => match name {
            "run" => command_with(alloc, Action::Run, "", "FILE", given),
            "check" => command_with(alloc, Action::Check, "", "FILE", given),
            "init" => Ok(command_on(alloc, Action::Init, folder_in(given))),
            "pipe" => command_over(alloc, Action::Pipe, given),
            "serve" => command_serving(alloc, given),
            "replay" => command_over(alloc, Action::Replay, given),
            "pack" => Ok(command_packing(alloc, given)),
            "drill" => Ok(command_alone(alloc, drill_in(given))),
            _ => Ok(None),
        },
        None => Ok(None),
    }
}

/// What a word is the name of.
fn topic_named(word: &str) -> Topic
    ensures { result ≡ topic_named word.now }
{
    match word {
        "run" => Topic::Run,
        "check" => Topic::Check,
        "init" => Topic::Init,
        "pipe" => Topic::Pipe,
        "serve" => Topic::Serve,
        "replay" => Topic::Replay,
        "pack" => Topic::Pack,
        "drill" => Topic::Drill,
        _ => Topic::Program,
    }
}

/// What help is asked of: the command that the first word names, or else the program.
fn topic_of(words: &[String]) -> Topic
    ensures { result ≡ topic_of (map string_bytes words.now) }
{
    match words {
        [word, ..] => topic_named(word),
        [] => Topic::Program,
    }
}

/// The action that shows a text where `clap` says that one is wanted.
fn shown_by(topic: Topic, kind: ErrorKind) -> Option<Action>
    ensures value { result ≡ shown_by topic kind }
    ensures range { IfSome result HasWorkers }
    ensures alone { IfSome result IsNoPacking }
{
    match kind {
        ErrorKind::DisplayHelp => Some(Action::Help(topic)),
        ErrorKind::DisplayVersion => Some(Action::Version),
        _ => None,
    }
}

/// What the words after the program's name ask for, or nothing where they aren't taken.
pub fn command_of<'w>(alloc: Global, words: &'w [String]) -> Result<Option<Command<'w>>, AllocError>
    ensures { IfOk result (λ command.
        option_map command_asked command ≡ asked_by (map string_bytes words.entry.now)) }
{
    let app = storyhost(alloc)?;
    match app.try_get_matches_from(words) {
        Ok(matches) => command_in(alloc, &matches),
        Err(error) => match error.kind() {
            ErrorKind::OutOfMemory => Err(AllocError),
            kind => Ok(command_alone(alloc, shown_by(topic_of(words), kind))),
        },
    }
}
