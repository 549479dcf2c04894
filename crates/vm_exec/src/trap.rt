//! Faults of the layers below as traps.

ghost use Rattle.std.specs.Prelude.{◌≡◌, Ok, Err, nat_lt, if◌then◌else◌};
ghost use Rattle.vm_exec.specs.Answer.{MakesValue};
ghost use Rattle.vm_exec.specs.Fault.{flow_trap, stack_code};
ghost use Rattle.vm_memory.specs.declared.fault.Trap.TheVariants.{Fault, NoMemory};
ghost use Rattle.vm_memory.specs.declared.faults.TheConstants.{BUDGET_SPENT};

use std::alloc::AllocError;
use vm_flow::FlowStop;
use vm_memory::{Trap, faults};
use vm_stack::StackFault;

pub(crate) const BAD_OPCODE: Trap = Trap::Fault(faults::BAD_OPCODE);

pub(crate) const BAD_STUB: Trap = Trap::Fault(faults::BAD_STUB);

pub(crate) const BAD_STRING: Trap = Trap::Fault(faults::BAD_STRING);

pub(crate) const DEBUG_TRAP: Trap = Trap::Fault(faults::DEBUG_TRAP);

/// A size that memory or a block may not have.
pub(crate) const BAD_SIZE: Trap = Trap::Fault(faults::BAD_SIZE);

/// No block of the heap begins there.
pub(crate) const BAD_BLOCK: Trap = Trap::Fault(faults::BAD_BLOCK);

pub(crate) const BUDGET: Trap = Trap::Fault(faults::BUDGET_SPENT);

pub(crate) fn no_memory(_error: AllocError) -> Trap
    ensures { result ≡ NoMemory }
{
    Trap::NoMemory
}

/// A fault of the stack by its number.
#[inline(always)]
pub(crate) fn of_stack(fault: StackFault) -> Trap
    ensures { result ≡ Fault (stack_code fault) }
{
    Trap::Fault(match fault {
        StackFault::Overflow => faults::STACK_OVERFLOW,
        StackFault::Underflow => faults::STACK_UNDERFLOW,
        StackFault::BadLocal => faults::BAD_LOCAL,
    })
}

/// What ended a call, a return or a throw, by its number.
pub(crate) fn of_flow(stop: FlowStop) -> Trap
    ensures { result ≡ flow_trap stop }
{
    match stop {
        FlowStop::Memory(fault) => Trap::from(fault),
        FlowStop::Stack(fault) => of_stack(fault),
        FlowStop::BadFunction(_) => Trap::Fault(faults::BAD_FUNCTION),
        FlowStop::BadStub(_) => BAD_STUB,
        FlowStop::BadToken(_) => Trap::Fault(faults::BAD_TOKEN),
        FlowStop::NoMemory => Trap::NoMemory,
    }
}

/// The ticks, if so many are left.
pub(crate) fn charge(ticks: u64, left: u64) -> Result<u64, Trap>
    ensures { result ≡ if nat_lt left ticks then Err (Fault BUDGET_SPENT) else Ok ticks }
{
    if ticks > left { Err(BUDGET) } else { Ok(ticks) }
}
