//! Marks (own).

/// The session of an answered line, and the length of its history as the line's turn began. It is
/// (64, 0) where the line names no session below 64 or its reading found no memory.
#[derive(Clone, Copy, Debug, PartialEq, Eq, Drop)]
pub struct Mark {
    pub session: u8,
    pub length: u64,
}
