//! Why bytes are no world's.

ghost use Rattle.std.specs.Prelude.{◌≡◌};
ghost use Rattle.snap_fields.specs.declared.fault.SnapFault.TheVariants.{NoMemory};

use std::alloc::{AllocError, AllocFailed};

/// The bytes spell no fields, or want of memory.
#[derive(Clone, Copy, Debug, PartialEq, Eq, thiserror::Error)]
pub enum SnapFault {
    #[error("the bytes are no snapshot")]
    BadSnap,
    #[error("out of memory")]
    NoMemory,
}

impl From<AllocError> for SnapFault {
    ghost from_gives = { λ _ e. e ≡ NoMemory };

    fn from(_e: AllocError) -> SnapFault {
        SnapFault::NoMemory
    }
}

impl<T: Drop> From<AllocFailed<T>> for SnapFault {
    ghost from_gives = { λ _ e. e ≡ NoMemory };

    fn from(_e: AllocFailed<T>) -> SnapFault {
        SnapFault::NoMemory
    }
}
