//! An answer with its mark.

/// How long the history was as the turn began, and whether it took an entry.
#[derive(Clone, Copy, Drop)]
pub struct Answer {
    pub mark: u64,
    pub accepted: bool,
}
