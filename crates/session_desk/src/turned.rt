//! What came of a turn (own).

use line_words::Reply;
use session_core::Outcome;

/// The reply of a turn, and what the turn met.
#[derive(Debug, Drop)]
pub struct Turned {
    pub reply: Reply,
    pub outcome: Outcome,
}
