//! What a session's history takes of its turns (own).

use gate_journal::Command;

/// An entry of a session's history, with the number of the pass that made it.
#[derive(Debug, Drop)]
pub enum Entry {
    /// A command that the session accepted.
    Accepted { by: u64, command: Command },
    /// A fault of the journal's disk, with the disk's counts of faults at the start and the end of
    /// the append.
    Faulted { by: u64, from: u64, to: u64 },
}

/// What a turn met.
#[derive(Clone, Copy, Debug, PartialEq, Eq)]
pub enum Outcome {
    /// Nothing stood in its way.
    Answered,
    /// The journal's disk failed, its count of faults rising from one number to the other.
    DiskFailed { from: u64, to: u64 },
    /// Memory ran out before a row was written.
    OutOfMemory,
    /// Memory ran out once the row was synced: the command stays accepted.
    Forgotten,
}
