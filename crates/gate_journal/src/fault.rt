//! Why a journal isn't begun, opened or extended (own).

use std::alloc::{AllocError, AllocFailed};

/// The disk failed: its counts of faults at the start and at the end of the call.
#[derive(Clone, Copy, Debug, PartialEq, Eq, thiserror::Error)]
#[error("the disk failed: its faults went from {from} to {to}")]
pub struct DiskFault {
    pub from: u64,
    pub to: u64,
}

/// Why a journal isn't opened.
#[derive(Clone, Copy, Debug, PartialEq, Eq, thiserror::Error)]
pub enum JournalFault {
    /// The first 16 bytes are no header.
    #[error("the bytes are no journal")]
    NotJournal,
    /// The row behind the open gate at this place may not stand there, or the gate is missing.
    #[error("no row may stand behind the gate at {0}")]
    Corrupt(u64),
    #[error(transparent)]
    DiskFault(DiskFault),
    #[error("memory ran out")]
    NoMemory,
}

impl From<AllocError> for JournalFault {
    ghost use Rattle.std.specs.Prelude.{◌≡◌};
    ghost use Rattle.gate_journal.specs.declared.fault.JournalFault.TheVariants.{NoMemory};

    ghost from_gives = { λ _ e. e ≡ NoMemory };

    fn from(_: AllocError) -> Self {
        JournalFault::NoMemory
    }
}

impl<T: Drop> From<AllocFailed<T>> for JournalFault {
    ghost use Rattle.std.specs.Prelude.{◌≡◌};
    ghost use Rattle.gate_journal.specs.declared.fault.JournalFault.TheVariants.{NoMemory};

    ghost from_gives = { λ _ e. e ≡ NoMemory };

    fn from(_: AllocFailed<T>) -> Self {
        JournalFault::NoMemory
    }
}

/// Why a journal isn't begun.
#[derive(Clone, Copy, Debug, PartialEq, Eq, thiserror::Error)]
pub enum InitFault {
    #[error("the disk holds something")]
    NotEmpty,
    #[error(transparent)]
    DiskFault(DiskFault),
}
