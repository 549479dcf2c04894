//! Who made each entry of a session's history (own).

/// An entry of a history, by the number of the pass that made it.
#[derive(Clone, Copy)]
pub enum Mark {
    /// A command, the next one in their list.
    Accepted { by: u64 },
    /// A fault of the journal's disk, with its counts of faults.
    Faulted { by: u64, from: u64, to: u64 },
}
