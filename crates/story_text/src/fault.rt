//! Why a text was not read (own).

ghost use Rattle.std.specs.Prelude.{◌≡◌};
ghost use Rattle.story_text.specs.declared.fault.TextFault.TheVariants.{NoMemory};

use std::alloc::AllocError;

/// Why a word was not read as a text.
#[derive(Clone, Copy, Debug, PartialEq, Eq, thiserror::Error)]
pub enum TextFault {
    #[error("the word spells no text")]
    BadText,
    #[error("memory ran out")]
    NoMemory,
}

impl From<AllocError> for TextFault {
    ghost from_gives = { λ _ e. e ≡ NoMemory };

    fn from(_e: AllocError) -> TextFault {
        TextFault::NoMemory
    }
}
