//! The faults of memory, and of a story as a whole.

use crate::faults::{BAD_READ, BAD_WRITE};
use std::alloc::AllocError;

/// An access outside memory, or a write below RAMSTART, with its address.
#[derive(Clone, Copy, Debug, PartialEq, Eq)]
pub enum MemFault {
    BadRead(u32),
    BadWrite(u32),
}

/// What ends a write: its fault, or want of memory of the host.
#[derive(Clone, Copy, Debug, PartialEq, Eq)]
pub enum MemStop {
    Fault(MemFault),
    NoMemory,
}

impl From<MemFault> for MemStop {
    ghost use Rattle.std.specs.Prelude.{◌≡◌};
    ghost use Rattle.vm_memory.specs.declared.fault.MemStop.TheVariants.{Fault};

    ghost from_gives = { λ f stop. stop ≡ Fault f };

    fn from(fault: MemFault) -> MemStop {
        MemStop::Fault(fault)
    }
}

impl From<AllocError> for MemStop {
    ghost use Rattle.std.specs.Prelude.{◌≡◌};
    ghost use Rattle.vm_memory.specs.declared.fault.MemStop.TheVariants.{NoMemory};

    ghost from_gives = { λ e stop. stop ≡ NoMemory };

    fn from(_: AllocError) -> MemStop {
        MemStop::NoMemory
    }
}

/// A fault of a story by its number, one of `faults`, or want of memory of the host.
#[derive(Clone, Copy, Debug, PartialEq, Eq)]
pub enum Trap {
    Fault(u8),
    NoMemory,
}

impl From<MemFault> for Trap {
    ghost use Rattle.std.specs.Prelude.{◌≡◌};
    ghost use Rattle.vm_memory.specs.Fault.{code_of};
    ghost use Rattle.vm_memory.specs.declared.fault.Trap.TheVariants.{Fault};

    ghost from_gives = { λ f trap. trap ≡ Fault (code_of f) };

    fn from(fault: MemFault) -> Trap {
        Trap::Fault(match fault {
            MemFault::BadRead(_) => BAD_READ,
            MemFault::BadWrite(_) => BAD_WRITE,
        })
    }
}

impl From<MemStop> for Trap {
    ghost use Rattle.std.specs.Prelude.{◌≡◌};
    ghost use Rattle.vm_memory.specs.Fault.{trap_of};

    ghost from_gives = { λ stop trap. trap ≡ trap_of stop };

    fn from(stop: MemStop) -> Trap {
        match stop {
            MemStop::Fault(fault) => Trap::from(fault),
            MemStop::NoMemory => Trap::NoMemory,
        }
    }
}
