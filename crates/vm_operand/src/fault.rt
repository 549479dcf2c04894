//! What can be wrong with an instruction.

use vm_memory::{MemFault, Trap, faults};

/// A byte that can't be read, a number that is no opcode, one of an opcode that isn't played here,
/// a mode that is none or is none of a store, and the two faults of a division.
#[derive(Clone, Copy, Debug, PartialEq, Eq, thiserror::Error)]
pub enum OpFault {
    #[error("a byte of the instruction can't be read")]
    Read(MemFault),
    #[error("{0} is no opcode")]
    BadOpcode(u32),
    #[error("the opcode {0} isn't played here")]
    Unsupported(u32),
    #[error("no operand has the mode {0}")]
    BadMode(u32),
    #[error("a division by zero")]
    DivideByZero,
    #[error("a division's result is too large")]
    DivideOverflow,
}

impl From<MemFault> for OpFault {
    ghost use Rattle.std.specs.Prelude.{◌≡◌};
    ghost use Rattle.vm_operand.specs.declared.fault.OpFault.TheVariants.{Read};

    ghost from_gives = { λ f fault. fault ≡ Read f };

    fn from(fault: MemFault) -> OpFault {
        OpFault::Read(fault)
    }
}

impl From<OpFault> for Trap {
    ghost use Rattle.std.specs.Prelude.{◌≡◌};
    ghost use Rattle.vm_memory.specs.declared.fault.Trap.TheVariants.{Fault};
    ghost use Rattle.vm_operand.specs.Fault.{operation_fault_code};

    ghost from_gives = { λ f trap. trap ≡ Fault (operation_fault_code f) };

    fn from(fault: OpFault) -> Trap {
        match fault {
            OpFault::Read(read) => Trap::from(read),
            OpFault::BadOpcode(_) => Trap::Fault(faults::BAD_OPCODE),
            OpFault::Unsupported(_) => Trap::Fault(faults::UNSUPPORTED_OPCODE),
            OpFault::BadMode(_) => Trap::Fault(faults::BAD_MODE),
            OpFault::DivideByZero => Trap::Fault(faults::DIVISION_BY_ZERO),
            OpFault::DivideOverflow => Trap::Fault(faults::DIVISION_OVERFLOW),
        }
    }
}
