//! Why no Glk state is made of fields.

ghost use Rattle.std.specs.Prelude.{◌≡◌};
ghost use Rattle.snap_glk.specs.declared.unfit.Unfit.TheVariants.{NoMemory};

use std::alloc::{AllocError, AllocFailed};

/// No session may have it, or want of memory.
#[derive(Clone, Copy, Debug, PartialEq, Eq)]
pub(crate) enum Unfit {
    Invalid,
    NoMemory,
}

impl From<AllocError> for Unfit {
    ghost from_gives = { λ _ e. e ≡ NoMemory };

    fn from(_e: AllocError) -> Unfit {
        Unfit::NoMemory
    }
}

impl<T: Drop> From<AllocFailed<T>> for Unfit {
    ghost from_gives = { λ _ e. e ≡ NoMemory };

    fn from(_e: AllocFailed<T>) -> Unfit {
        Unfit::NoMemory
    }
}
