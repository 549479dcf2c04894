//! What ends a string other than its end.

use vm_memory::{MemFault, Trap, faults};

/// A place that can't be read; no string, no node, or too long a path, with the address; an E1
/// string without a decoding table.
#[derive(Clone, Copy, Debug, PartialEq, Eq, thiserror::Error)]
pub enum StringStop {
    #[error("a string's place can't be read")]
    Read(MemFault),
    #[error("no string or node stands at {0}, or its path is too long")]
    BadString(u32),
    #[error("a string needs a decoding table")]
    NoTable,
}

impl From<MemFault> for StringStop {
    ghost use Rattle.std.specs.Prelude.{◌≡◌};
    ghost use Rattle.vm_string.specs.declared.stop.StringStop.TheVariants.{Read};

    ghost from_gives = { λ fault stop. stop ≡ Read fault };

    fn from(fault: MemFault) -> StringStop {
        StringStop::Read(fault)
    }
}

impl From<StringStop> for Trap {
    ghost use Rattle.std.specs.Prelude.{◌≡◌};
    ghost use Rattle.vm_memory.specs.declared.fault.Trap.TheVariants.{Fault};
    ghost use Rattle.vm_string.specs.Fault.{string_fault_code};

    ghost from_gives = { λ stop trap. trap ≡ Fault (string_fault_code stop) };

    fn from(stop: StringStop) -> Trap {
        match stop {
            StringStop::Read(fault) => Trap::from(fault),
            StringStop::BadString(_) => Trap::Fault(faults::BAD_STRING),
            StringStop::NoTable => Trap::Fault(faults::NO_TABLE),
        }
    }
}
