//! Why a call on streams is refused.

ghost use Rattle.std.specs.Prelude.{◌≡◌};
ghost use Rattle.glk_streams.specs.declared.fault.StreamStop.TheVariants as stop;

use std::alloc::AllocError;
use vm_memory::{MemFault, MemStop};

/// Why a call on streams is refused: a fault of the story's memory, a number that isn't live, a
/// value that the call doesn't take, or want of memory of the host.
#[derive(Clone, Copy, Debug, PartialEq, Eq)]
pub enum StreamStop {
    Memory(MemFault),
    BadObject,
    BadArgument,
    NoMemory,
}

impl From<AllocError> for StreamStop {
    ghost from_gives = { λ _ e. e ≡ stop.NoMemory };

    fn from(_e: AllocError) -> StreamStop {
        StreamStop::NoMemory
    }
}

impl From<MemFault> for StreamStop {
    ghost from_gives = { λ f e. e ≡ stop.Memory f };

    fn from(fault: MemFault) -> StreamStop {
        StreamStop::Memory(fault)
    }
}

impl From<MemStop> for StreamStop {
    ghost use Rattle.glk_streams.specs.Stop.{of_stop};

    ghost from_gives = { λ f e. e ≡ of_stop f };

    fn from(stop: MemStop) -> StreamStop {
        match stop {
            MemStop::Fault(fault) => StreamStop::Memory(fault),
            MemStop::NoMemory => StreamStop::NoMemory,
        }
    }
}
