//! The faults of calls by their numbers.

ghost use Rattle.std.specs.Prelude.{◌≡◌};
ghost use Rattle.glk_dispatch.specs.Fault.{stack_code, stream_trap};
ghost use Rattle.vm_memory.specs.declared.fault.Trap.TheVariants.{Fault};

use glk_streams::StreamStop;
use vm_memory::Trap;
use vm_stack::StackFault;

/// The fault of a read past memory's end.
pub(crate) const BAD_READ: Trap = Trap::Fault(1);

/// The fault of a call with more arguments than there are values.
pub(crate) const UNDERFLOW: Trap = Trap::Fault(4);

/// The fault of a string argument that is none.
pub(crate) const BAD_STRING: Trap = Trap::Fault(15);

/// The fault of a number that no call has.
pub(crate) const BAD_SELECTOR: Trap = Trap::Fault(20);

/// A wrong argument's fault: no live object of this number.
pub(crate) const BAD_OBJECT: Trap = Trap::Fault(21);

/// A wrong argument's fault: a value that the call doesn't take, or a wrong count of arguments.
pub(crate) const BAD_ARGUMENT: Trap = Trap::Fault(22);

/// The fault of a turn in which windows show too many characters.
pub(crate) const FLOOD: Trap = Trap::Fault(23);

/// A fault of the stack by its number.
pub(crate) fn of_stack(fault: StackFault) -> Trap
    ensures { result ≡ Fault (stack_code fault) }
{
    Trap::Fault(match fault {
        StackFault::Overflow => 3,
        StackFault::Underflow => 4,
        StackFault::BadLocal => 5,
    })
}

/// A refusal of streams by its number.
pub(crate) fn of_streams(stop: StreamStop) -> Trap
    ensures { result ≡ stream_trap stop }
{
    match stop {
        StreamStop::Memory(fault) => Trap::from(fault),
        StreamStop::BadObject => BAD_OBJECT,
        StreamStop::BadArgument => BAD_ARGUMENT,
        StreamStop::NoMemory => Trap::NoMemory,
    }
}
