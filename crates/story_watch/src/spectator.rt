//! What a spectator is answered (own).

ghost use Rattle.std.specs.Prelude.{◌≡◌, ◌≤◌, length, IfOk};
ghost use Rattle.session_core.specs.Answer.{first_refusal};
ghost use Rattle.story_watch.specs.Watch.{has_word, is_hidden, last_watched, watch_checks};
ghost use Rattle.story_watch.specs.Watch.{watch_reply};

use crate::shows::shows;
use crate::word::word_of;
use gate_journal::Command;
use line_words::{No, Reply};
use session_core::{count, game_of, is_in_use, is_other_story};
use std::alloc::{AllocError, Global};
use story_run::Story;

/// The session numbers are below this.
const SESSIONS: u32 = 64;

/// The most shows of a reply but for the first.
const MORE_SHOWS: u32 = 7;

/// The game was opened with a key whose word this is.
fn has_word(game: &[Command], word: &[u8; 16]) -> bool
    ensures { result ≡ has_word game.now word.now }
{
    match game {
        [Command::Open { key, .. }, ..] => word_of(key).as_slice() == word.as_slice(),
        _ => false,
    }
}

/// Why a spectator's request is refused, if it is.
fn refusal(stories: &[Story], game: &[Command], s: u32, word: &[u8; 16], from: u32) -> Option<No>
    requires { length game.now ≤ 8192 }
    ensures { result ≡ first_refusal (watch_checks stories.now game.now s word.now from) }
{
    if s >= SESSIONS || !(is_in_use(game) && has_word(game, word)) {
        return Some(No::NoSession);
    }
    if is_other_story(stories, game) {
        return Some(No::Changed);
    }
    if from > count(game) {
        return Some(No::Early { c: count(game) });
    }
    None
}

/// What the session of this number, with these commands, at most 8,192, answers to a spectator
/// with this word who asks for its shows from this number on. `NO 2` where there is no such
/// session, or it is free or has another word; `NO 13` where its story isn't there or has changed;
/// `NO 5 c` where the number is past that of the last command; else at most eight shows. An error
/// is want of memory.
pub fn watch(
    alloc: Global,
    stories: &[Story],
    commands: &[Command],
    s: u32,
    word: &[u8; 16],
    from: u32,
) -> Result<Reply, AllocError>
    requires within { length commands.now ≤ 8192 }
    ensures value { IfOk result (λ reply. reply
        ≡ watch_reply stories.now commands.now s word.now from) }
{
    let game = game_of(commands);
    if let Some(why) = refusal(stories, game, s, word, from) {
        return Ok(Reply::No(why));
    }
    let to = count(game).min(from + MORE_SHOWS);
    let text = shows(alloc, stories, game, s, from, to)?;
    Ok(Reply::Seen { s, from, to, text })
}
