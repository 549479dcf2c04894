//! Why a request is refused (own).

ghost use Rattle.std.specs.Prelude.{◌≡◌, ◌≤◌, ◌&&◌, [], length, is_none, not};
ghost use Rattle.std.specs.Option.{option_copied};
ghost use Rattle.session_core.specs.Checks.{is_fresh, outline};
ghost use Rattle.session_core.specs.Answer.{declines, first_refusal, plain_checks, refusal_in};

use crate::checks::{
    is_absent, is_ahead, is_changed, is_different, is_early, is_fresh, is_missing, is_taken,
    is_watch,
};
use crate::history::count;
use gate_journal::Command;
use line_words::{No, Request};
use std::alloc::Global;
use story_run::{Story, World};
use story_text::{Input, Text};

/// The most commands that a session number accepts.
const MAX_COMMANDS: usize = 8192;

/// The refusals that need no world, in their order.
pub fn plain_refusal(stories: &[Story], game: &[Command], request: &Request) -> Option<No>
    requires { length game.now ≤ 8192 }
    ensures { result ≡ first_refusal (plain_checks stories.now game.now request.now) }
{
    if is_watch(request) {
        return Some(No::BadLine);
    }
    if is_absent(game, request) {
        return Some(No::NoSession);
    }
    if is_taken(game, request) {
        return Some(No::InUse);
    }
    if is_missing(stories, game, request) {
        return Some(No::NoStory);
    }
    if is_changed(stories, game, request) {
        return Some(No::Changed);
    }
    if is_early(game, request) {
        return Some(No::Stale { c: count(game) });
    }
    if is_different(game, request) {
        return Some(No::Other);
    }
    if is_ahead(game, request) {
        return Some(No::Early { c: count(game) });
    }
    None
}

/// A text of no characters, which takes no memory.
fn no_text(alloc: Global) -> Text
    ensures { result ≡ [] }
{
    Text::of(String::new(alloc))
}

/// What a request gives the story, but for its text.
fn outline(alloc: Global, request: &Request) -> Option<Input>
    ensures { result ≡ outline request.now }
{
    match request {
        Request::Line { win, term, .. } => Some(Input::Line {
            win: *win,
            text: no_text(alloc),
            key: *term,
        }),
        Request::Char { win, code, .. } => Some(Input::Char {
            win: *win,
            code: *code,
        }),
        Request::File { .. } => Some(Input::File {
            name: no_text(alloc),
        }),
        Request::Size { cols, rows, .. } => Some(Input::Size {
            cols: *cols,
            rows: *rows,
        }),
        Request::Open { .. }
        | Request::Last { .. }
        | Request::Close { .. }
        | Request::Watch { .. } => None,
    }
}

/// Why the story doesn't take a new input: it is over, or doesn't wait for that one.
fn declines(alloc: Global, now: Option<&World>, request: &Request) -> Option<No>
    ensures { result ≡ declines (option_copied now.entry) (outline request.now) }
{
    let world = now?;
    let input = outline(alloc, request)?;
    if world.is_over() {
        return Some(No::Over);
    }
    if !world.wants(&input) {
        return Some(No::Unwanted);
    }
    None
}

/// No check without the world refuses the request, and it gives the story a new input.
pub fn asks_story(alloc: Global, stories: &[Story], game: &[Command], request: &Request) -> bool
    requires { length game.now ≤ 8192 }
    ensures { result ≡ (is_none (first_refusal (plain_checks stories.now game.now request.now))
        && (is_fresh game.now request.now && not (is_none (outline request.now)))) }
{
    plain_refusal(stories, game, request).is_none()
        && is_fresh(game, request)
        && outline(alloc, request).is_some()
}

/// Why a session whose world is `now` refuses the request, if it does. It takes no memory.
pub fn refusal_in(
    alloc: Global,
    stories: &[Story],
    history: &[Command],
    game: &[Command],
    now: Option<&World>,
    request: &Request,
) -> Option<No>
    requires { length game.now ≤ 8192 }
    ensures { result ≡ refusal_in (option_copied now.entry) stories.now history.now
        game.now request.now }
{
    if let Some(why) = plain_refusal(stories, game, request) {
        return Some(why);
    }
    if !is_fresh(game, request) {
        return None;
    }
    if let Some(why) = declines(alloc, now, request) {
        return Some(why);
    }
    if history.len() >= MAX_COMMANDS {
        return Some(No::Full);
    }
    None
}
