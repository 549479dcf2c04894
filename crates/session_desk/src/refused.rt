//! Why a command wasn't committed (own).

use gate_journal::DiskFault;

/// Why a command wasn't committed.
#[derive(Clone, Copy, Debug, PartialEq, Eq, thiserror::Error)]
pub enum Refused {
    /// The journal's disk failed in this call.
    #[error(transparent)]
    DiskFault(DiskFault),
    #[error("memory ran out")]
    NoMemory,
}
