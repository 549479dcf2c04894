//! The turn of a session (own).

use crate::history::History;
use line_words::Reply;
use session_core::Outcome;
use story_text::Bytes;

/// How far a turn has come. A turn whose line makes the session accept a command goes on by an
/// append to the journal; any other has its reply at once.
#[derive(Drop)]
pub enum Phase {
    /// A command would be accepted, and no append of it has begun.
    Asked,
    /// Its append has begun.
    Begun,
    /// Its append has ended well, and the journal is still held.
    Kept,
    /// Its append has failed, the disk's count of faults rising from one number to the other, and
    /// the journal is still held.
    Broken { from: u64, to: u64 },
    /// Its append has ended well, and the journal is free again.
    Freed,
    /// The reply is ready, and the history hasn't taken the entry yet.
    Ready(Outcome),
    /// The reply is ready, and the history has taken the entry.
    Taken(Outcome, Reply),
    /// The reply is ready, and there is no entry.
    Plain(Outcome, Reply),
}

/// A turn under way: the number of its pass, its line without the LF, and how far it has come.
#[derive(Drop)]
pub struct Turn {
    pub pass: u64,
    pub line: Bytes,
    pub phase: Phase,
}

/// A session: its history, oldest entry first, and the turn that is under way.
#[derive(Drop)]
pub struct Session {
    pub history: History,
    pub turn: Option<Turn>,
}
