//! The entries of a journal, as contracts see them (own).

use crate::row::Row;

/// What a journal has taken down, in its order.
#[derive(Debug, Drop)]
pub enum Entry {
    /// A row that is synced.
    Kept(Row),
    /// A fault of the disk in the append of this row, with the disk's counts of faults at its start
    /// and end.
    Faulted { row: Row, from: u64, to: u64 },
}
