//! What one line is answered (own).
ghost use Rattle.std.specs.Prelude.{◌≡◌, ◌≤◌, ℕ, List, None};
ghost use Rattle.line_talk.specs.Lines.{heard};
ghost use Rattle.session_core.specs.Checks.{session_of};
ghost use Rattle.session_core.specs.declared.entry.Entry.{Entry};
ghost use Rattle.story_run.specs.declared.story.Story.{Story};
ghost use Rattle.host_serve.specs.Chain.{TurnsOnNone};
ghost use Rattle.host_serve.specs.Reading.{LineIsReadAs, IsUnread};
ghost use Rattle.host_serve.specs.Told.{turn_from};

use crate::mark::Mark;
use line_words::{No, Reply, Request};
use session_core::Outcome;

/// What a line is answered, what its turn met, and its mark.
#[derive(Drop)]
pub struct Answer {
    pub reply: Reply,
    pub outcome: Outcome,
    pub mark: Mark,
}

/// The mark of a line that names no session, or whose reading found no memory.
const NOWHERE: Mark = Mark {
    session: 64,
    length: 0,
};

/// The answer to a line that isn't read.
pub fn to_unread(_line: &[u8], why: No) -> Answer
    requires { IsUnread _line.now why }
    ensures { (stories : List Story) (budget : ℕ) (seen : List (List Entry))
        → TurnsOnNone stories budget seen (turn_from _line.now None result) seen }
{
    let outcome = match why {
        No::NoMemory => Outcome::OutOfMemory,
        _ => Outcome::Answered,
    };
    Answer {
        reply: Reply::No(why),
        outcome,
        mark: NOWHERE,
    }
}

/// The answer to a line that is read as this request, of a session that no host has.
pub fn to_absent(_line: &[u8], _request: &Request) -> Answer
    requires { 64 ≤ session_of _request.now }
    ensures { (stories : List Story) (budget : ℕ) (seen : List (List Entry))
        → LineIsReadAs budget _line.now _request.now
        → TurnsOnNone stories budget seen (turn_from _line.now None result) seen }
{
    Answer {
        reply: Reply::No(No::NoSession),
        outcome: Outcome::Answered,
        mark: NOWHERE,
    }
}

/// The answer to a line that was dropped, since it is too long.
pub fn to_dropped() -> Answer
    ensures { (stories : List Story) (budget : ℕ) (seen : List (List Entry)) (line : List ℕ)
        → heard line ≡ None → TurnsOnNone stories budget seen (turn_from line None result) seen }
{
    Answer {
        reply: Reply::No(No::LongLine),
        outcome: Outcome::Answered,
        mark: NOWHERE,
    }
}
