//! What a packing answers (own).

use gate_journal::{DiskFault, JournalFault};
use std::alloc::{AllocError, AllocFailed};

/// How many rows the new journal has, and how many the old one has.
#[derive(Clone, Copy, Debug, PartialEq, Eq)]
pub struct Packed {
    pub kept: u64,
    pub all: u64,
}

/// Why a journal isn't packed.
#[derive(Clone, Copy, Debug, PartialEq, Eq, thiserror::Error)]
pub enum PackFault {
    /// The old journal isn't read.
    #[error(transparent)]
    Old(JournalFault),
    #[error("the new disk holds something")]
    NotEmpty,
    /// The new disk failed.
    #[error(transparent)]
    New(DiskFault),
    #[error("memory ran out")]
    NoMemory,
}

impl From<AllocError> for PackFault {
    ghost use Rattle.std.specs.Prelude.{◌≡◌};
    ghost use Rattle.journal_pack.specs.declared.fault.PackFault.TheVariants.{NoMemory};

    ghost from_gives = { λ _ e. e ≡ NoMemory };

    fn from(_: AllocError) -> Self {
        PackFault::NoMemory
    }
}

impl<T: Drop> From<AllocFailed<T>> for PackFault {
    ghost use Rattle.std.specs.Prelude.{◌≡◌};
    ghost use Rattle.journal_pack.specs.declared.fault.PackFault.TheVariants.{NoMemory};

    ghost from_gives = { λ _ e. e ≡ NoMemory };

    fn from(_: AllocFailed<T>) -> Self {
        PackFault::NoMemory
    }
}
