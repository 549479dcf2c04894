//! The checks of a request, each by its reply (own).

ghost use Rattle.std.specs.Prelude.{◌≡◌, ◌≤◌, length, IfOk, Some, None, MatchOption};
ghost use Rattle.session_core.specs.History.{game_of, command_count, is_in_use, has_key, last_of};
ghost use Rattle.session_core.specs.Checks.{session_of, request_key, command_number, is_fresh};
ghost use Rattle.session_core.specs.Checks.{is_known, is_watch, is_absent, is_own_open, is_taken};
ghost use Rattle.session_core.specs.Checks.{is_story_missing, is_other_story, is_changed, is_early};
ghost use Rattle.session_core.specs.Checks.{is_different, is_ahead};

use crate::history::{count, is_in_use, story_at};
use crate::same::is_last;
use gate_journal::Command;
use line_words::Request;
use story_run::Story;

/// The session numbers are below this.
const SESSIONS: u32 = 64;

/// The session that a request names.
pub fn session_of(request: &Request) -> u32
    ensures { result ≡ session_of request.now }
{
    match request {
        Request::Open { s, .. }
        | Request::Line { s, .. }
        | Request::Char { s, .. }
        | Request::File { s, .. }
        | Request::Size { s, .. }
        | Request::Last { s, .. }
        | Request::Close { s, .. }
        | Request::Watch { s, .. } => *s,
    }
}

/// The letters and digits of its key; WATCH has none.
fn key_of(request: &Request) -> &[u8]
    ensures { result.now ≡ request_key request.now }
{
    match request {
        Request::Open { key, .. }
        | Request::Line { key, .. }
        | Request::Char { key, .. }
        | Request::File { key, .. }
        | Request::Size { key, .. }
        | Request::Last { key, .. }
        | Request::Close { key, .. } => key.as_slice(),
        Request::Watch { .. } => &[],
    }
}

/// The number of the request's command; OPEN, LAST and WATCH have none.
pub fn number_of(request: &Request) -> Option<u32>
    ensures { result ≡ command_number request.now }
{
    match request {
        Request::Open { .. } | Request::Last { .. } | Request::Watch { .. } => None,
        Request::Line { n, .. }
        | Request::Char { n, .. }
        | Request::File { n, .. }
        | Request::Size { n, .. }
        | Request::Close { n, .. } => Some(*n),
    }
}

fn has_key(game: &[Command], other: &[u8]) -> bool
    ensures { result ≡ has_key game.now other.now }
{
    match game {
        [Command::Open { key, .. }, ..] => key.as_slice() == other,
        _ => false,
    }
}

/// A new command: OPEN where the session is free, or the number after the last one.
pub fn is_fresh(game: &[Command], request: &Request) -> bool
    requires { length game.now ≤ 8192 }
    ensures { result ≡ is_fresh game.now request.now }
{
    match request {
        Request::Open { .. } => !is_in_use(game),
        _ => match number_of(request) {
            Some(n) => n == count(game) + 1,
            None => false,
        },
    }
}

fn is_known(game: &[Command], request: &Request) -> bool
    requires { length game.now ≤ 8192 }
    ensures { result ≡ is_known game.now request.now }
{
    match request {
        Request::Open { .. } => true,
        Request::Close { n, .. } => {
            has_key(game, key_of(request)) && (is_in_use(game) || *n == count(game))
        }
        _ => has_key(game, key_of(request)) && is_in_use(game),
    }
}

/// A spectator's request, which a session doesn't answer by itself.
pub fn is_watch(request: &Request) -> bool
    ensures { result ≡ is_watch request.now }
{
    matches!(request, Request::Watch { .. })
}

/// No such session number; or, but for OPEN, the session is free or has another key.
pub fn is_absent(game: &[Command], request: &Request) -> bool
    requires { length game.now ≤ 8192 }
    ensures { result ≡ is_absent game.now request.now }
{
    session_of(request) >= SESSIONS || !is_known(game, request)
}

fn is_own_open(game: &[Command], request: &Request) -> bool
    ensures { result ≡ is_own_open game.now request.now }
{
    match request {
        Request::Open {
            key,
            story,
            seed,
            cols,
            rows,
            ..
        } => match game {
            [
                Command::Open {
                    key: k,
                    story: t,
                    seed: d,
                    cols: c,
                    rows: r,
                    ..
                },
            ] => {
                k.as_slice() == key.as_slice()
                    && u32::from(*t) == *story
                    && *d == *seed
                    && *c == *cols
                    && *r == *rows
            }
            _ => false,
        },
        _ => false,
    }
}

/// OPEN on a session in use, unless no command came since and it is that very OPEN.
pub fn is_taken(game: &[Command], request: &Request) -> bool
    ensures { result ≡ is_taken game.now request.now }
{
    match request {
        Request::Open { .. } => is_in_use(game) && !is_own_open(game, request),
        _ => false,
    }
}

/// OPEN of a free session with a story that isn't there.
pub fn is_missing(stories: &[Story], game: &[Command], request: &Request) -> bool
    ensures { result ≡ is_story_missing stories.now game.now request.now }
{
    match request {
        Request::Open { story, .. } => !is_in_use(game) && story_at(stories, *story).is_none(),
        _ => false,
    }
}

/// The game's story isn't there, or its file has another digest than at the OPEN.
pub fn is_other_story(stories: &[Story], game: &[Command]) -> bool
    ensures { result ≡ is_other_story stories.now game.now }
{
    match game {
        [Command::Open { story, digest, .. }, ..] => match story_at(stories, u32::from(*story)) {
            None => true,
            Some(there) => there.digest.as_slice() != digest.as_slice(),
        },
        _ => false,
    }
}

/// That is so; not for CLOSE or a new OPEN.
pub fn is_changed(stories: &[Story], game: &[Command], request: &Request) -> bool
    ensures { result ≡ is_changed stories.now game.now request.now }
{
    match request {
        Request::Open { .. } => is_in_use(game) && is_other_story(stories, game),
        Request::Close { .. } => false,
        _ => is_other_story(stories, game),
    }
}

/// The number of an earlier command.
pub fn is_early(game: &[Command], request: &Request) -> bool
    requires { length game.now ≤ 8192 }
    ensures { result ≡ is_early game.now request.now }
{
    match number_of(request) {
        Some(n) => n < count(game),
        None => false,
    }
}

/// The number of the last command, for another command.
pub fn is_different(game: &[Command], request: &Request) -> bool
    requires { length game.now ≤ 8192 }
    ensures { result ≡ is_different game.now request.now }
{
    match number_of(request) {
        Some(n) => n == count(game) && !is_last(game.last(), request),
        None => false,
    }
}

/// A number past the next one.
pub fn is_ahead(game: &[Command], request: &Request) -> bool
    requires { length game.now ≤ 8192 }
    ensures { result ≡ is_ahead game.now request.now }
{
    match number_of(request) {
        Some(n) => n > count(game) + 1,
        None => false,
    }
}
