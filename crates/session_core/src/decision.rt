//! The reply to a request, and the command that it makes a session accept (own).

ghost use Rattle.std.specs.Prelude.{◌≡◌, ◌≤◌, ◌<◌, length, IfOk, IfSome};
ghost use Rattle.session_core.specs.History.{game_of};
ghost use Rattle.session_core.specs.Checks.{command_of, session_of};
ghost use Rattle.session_core.specs.Answer.{answer, refusal_of, accepted_by, history_extended};
ghost use Rattle.session_core.specs.Answer.{game_show, shown_number};

use crate::checks::{is_fresh, session_of};
use crate::commands::copies_of;
use crate::history::{count, game_of, is_in_use, story_at};
use crate::refusal::{asks_story, refusal_in};
use crate::world::world_of;
use gate_journal::Command;
use line_words::{No, Reply, Request};
use std::alloc::{AllocError, Global};
use story_run::Story;
use story_text::Bytes;

/// What a request is answered.
#[derive(Debug, Drop)]
pub struct Decision {
    pub reply: Reply,
    /// The command that joins the session's history, if one does.
    pub accepted: Option<Command>,
}

/// The command that a request asks to be accepted; LAST and WATCH ask for none.
pub fn command_of(
    alloc: Global,
    stories: &[Story],
    request: &Request,
) -> Result<Option<Command>, AllocError>
    ensures { IfOk result (λ command. command ≡ command_of stories.now request.now) }
{
    Ok(Some(match request {
        Request::Open {
            key,
            story,
            seed,
            cols,
            rows,
            budget,
            ..
        } => match story_at(stories, *story) {
            Some(there) => Command::Open {
                key: key.copy_of(alloc)?,
                story: *story as u16,
                digest: there.digest,
                seed: *seed,
                cols: *cols,
                rows: *rows,
                budget: *budget,
            },
            None => return Ok(None),
        },
        Request::Line {
            win,
            text,
            term,
            ..
        } => Command::Line {
            win: *win,
            term: *term,
            text: text.copy_of(alloc)?,
        },
        Request::Char { win, code, .. } => Command::Char {
            win: *win,
            code: *code,
        },
        Request::File { name, .. } => Command::File {
            name: name.copy_of(alloc)?,
        },
        Request::Size { cols, rows, .. } => Command::Size {
            cols: *cols,
            rows: *rows,
        },
        Request::Close { .. } => Command::Close,
        Request::Last { .. } | Request::Watch { .. } => return Ok(None),
    }))
}

/// Why the request is refused, if it is. The game is played only where the story is asked.
fn refusal_of(
    alloc: Global,
    stories: &[Story],
    history: &[Command],
    game: &[Command],
    request: &Request,
) -> Result<Option<No>, AllocError>
    requires { length game.now ≤ 8192 }
    ensures { IfOk result (λ why. why
        ≡ refusal_of stories.now history.now game.now request.now) }
{
    if !asks_story(alloc, stories, game, request) {
        return Ok(refusal_in(alloc, stories, history, game, None, request));
    }
    let now = world_of(alloc, stories, game)?;
    Ok(refusal_in(alloc, stories, history, game, now.as_ref(), request))
}

/// The command that is accepted where the request isn't refused.
#[tactic(auto, unfolding(crate::specs::Answer::accepted_by))]
fn accepted_by(
    alloc: Global,
    stories: &[Story],
    game: &[Command],
    request: &Request,
) -> Result<Option<Command>, AllocError>
    requires { length game.now ≤ 8192 }
    ensures { IfOk result (λ command. command ≡ accepted_by stories.now game.now request.now) }
{
    if is_fresh(game, request) {
        command_of(alloc, stories, request)
    } else {
        Ok(None)
    }
}

/// The number in a show: 0 for OPEN, that of the last command for LAST, else the request's own.
pub fn shown_number(game: &[Command], request: &Request) -> u32
    requires { length game.now ≤ 8192 }
    ensures { result ≡ shown_number game.now request.now }
{
    match request {
        Request::Open { .. } => 0,
        Request::Last { .. } => count(game),
        Request::Line { n, .. }
        | Request::Char { n, .. }
        | Request::File { n, .. }
        | Request::Size { n, .. }
        | Request::Close { n, .. } => *n,
        Request::Watch { from, .. } => *from,
    }
}

/// The show of a game: what its world shows, or the line of a session that was closed.
#[tactic(auto, unfolding(crate::specs::Answer::game_show))]
fn show_of(alloc: Global, stories: &[Story], game: &[Command]) -> Result<Bytes, AllocError>
    ensures { IfOk result (λ show. show ≡ game_show stories.now game.now) }
{
    if !is_in_use(game) {
        return Ok(Bytes::of(Vec::from_slice(alloc, b"E closed\n")?));
    }
    match world_of(alloc, stories, game)? {
        Some(world) => Ok(Bytes::of(Vec::from_slice(alloc, world.last())?)),
        None => Ok(Bytes::of(Vec::new(alloc))),
    }
}

/// The history with the accepted command at its end.
fn extended(
    alloc: Global,
    history: &[Command],
    accepted: &Option<Command>,
) -> Result<Vec<Command>, AllocError>
    ensures { IfOk result (λ commands. commands.items ≡ history_extended history.now accepted.now) }
{
    let mut commands = copies_of(alloc, history)?;
    if let Some(command) = accepted {
        commands.push(command.copy_of(alloc)?)?;
    }
    Ok(commands)
}

/// What a session with this history is answered to the request, and the command that it then
/// accepts: the history is played from the start for each request. The history holds at most 8,192
/// commands, oldest first. An error is want of memory.
#[tactic(auto, unfolding(crate::specs::Answer::answer))]
pub fn decide(
    alloc: Global,
    stories: &[Story],
    history: &[Command],
    request: &Request,
) -> Result<Decision, AllocError>
    requires { length history.now ≤ 8192 }
    ensures value { IfOk result
        (λ decision. decision ≡ answer stories.now history.now request.now) }
    ensures within { IfOk result
        (λ decision. IfSome decision.accepted (λ _. length history.now < 8192)) }
{
    let game = game_of(history);
    if let Some(why) = refusal_of(alloc, stories, history, game, request)? {
        return Ok(Decision {
            reply: Reply::No(why),
            accepted: None,
        });
    }
    let accepted = accepted_by(alloc, stories, game, request)?;
    let commands = extended(alloc, history, &accepted)?;
    let body = show_of(alloc, stories, game_of(&commands))?;
    Ok(Decision {
        reply: Reply::Show {
            s: session_of(request),
            n: shown_number(game, request),
            body,
        },
        accepted,
    })
}
