//! A game of a journal (own).

use session_core::Commands;

/// A game that a session played: its commands from the OPEN on, up to the session's next OPEN.
#[derive(Debug, Drop)]
pub struct Game {
    /// The session.
    pub session: u8,
    /// The place of the OPEN's row in the journal, in bytes.
    pub place: u64,
    pub commands: Commands,
}
