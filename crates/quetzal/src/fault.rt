//! Why bytes are no save of a story.

ghost use Rattle.std.specs.Prelude.{◌≡◌};
ghost use Rattle.quetzal.specs.Fault.{save_fault_number};
ghost use Rattle.quetzal.specs.declared.fault.SaveFault.TheVariants.{NoMemory};

use std::alloc::AllocError;

/// The first cause against a save, or want of memory.
#[derive(Clone, Copy, Debug, PartialEq, Eq, thiserror::Error)]
pub enum SaveFault {
    /// The bytes don't begin with a form of type `IFZS`.
    #[error("the bytes are no save")]
    NotSave,
    /// The form or a chunk passes the bytes, or a chunk that is needed is missing.
    #[error("the save is cut")]
    Cut,
    /// The first 128 bytes of memory aren't the story's.
    #[error("the save is of another story")]
    OtherStory,
    /// Memory has no size that it may have, or its contents don't fill it.
    #[error("the memory of the save is damaged")]
    BadRuns,
    /// The stack is larger than the story's, or isn't call frames with a stub on top.
    #[error("the stack of the save is damaged")]
    BadStack,
    /// The heap isn't one that this memory may have.
    #[error("the heap of the save is damaged")]
    BadHeap,
    #[error("out of memory")]
    NoMemory,
}

impl SaveFault {
    /// The cause's number, 1 to 6; 0 for want of memory.
    pub fn number(self) -> u8
        ensures value { result ≡ save_fault_number self }
    {
        match self {
            SaveFault::NotSave => 1,
            SaveFault::Cut => 2,
            SaveFault::OtherStory => 3,
            SaveFault::BadRuns => 4,
            SaveFault::BadStack => 5,
            SaveFault::BadHeap => 6,
            SaveFault::NoMemory => 0,
        }
    }
}

impl From<AllocError> for SaveFault {
    ghost from_gives = { λ _ e. e ≡ NoMemory };

    fn from(_e: AllocError) -> SaveFault {
        SaveFault::NoMemory
    }
}
