// Why a call, a return or a throw stops.
use std::alloc::AllocError;
use vm_memory::MemFault;
use vm_stack::StackFault;

/// Why a call, a return or a throw stops.
#[derive(Clone, Copy, Debug, PartialEq, Eq)]
pub enum FlowStop {
    /// A byte of the function is past memory's end.
    Memory(MemFault),
    /// The stack refuses a frame, a value or a stub.
    Stack(StackFault),
    /// No function of type C0 or C1, with a well formed list of locals, is at the address.
    BadFunction(u32),
    /// The DestType of a stub is none that its taker knows. No call of this crate answers it.
    BadStub(u32),
    /// No stub for a frame of the stack ends at the token.
    BadToken(u32),
    /// There is no room for a copy of the function's list of locals.
    NoMemory,
}

impl From<MemFault> for FlowStop {
    ghost use Rattle.std.specs.Prelude.{◌≡◌};
    ghost use Rattle.vm_flow.specs.declared.stop.FlowStop.TheVariants as stop;

    ghost from_gives = { λ f x. x ≡ stop.Memory f };

    fn from(fault: MemFault) -> FlowStop {
        FlowStop::Memory(fault)
    }
}

impl From<StackFault> for FlowStop {
    ghost use Rattle.std.specs.Prelude.{◌≡◌};
    ghost use Rattle.vm_flow.specs.declared.stop.FlowStop.TheVariants as stop;

    ghost from_gives = { λ f x. x ≡ stop.Stack f };

    fn from(fault: StackFault) -> FlowStop {
        FlowStop::Stack(fault)
    }
}

impl From<AllocError> for FlowStop {
    ghost use Rattle.std.specs.Prelude.{◌≡◌};
    ghost use Rattle.vm_flow.specs.declared.stop.FlowStop.TheVariants as stop;

    ghost from_gives = { λ f x. x ≡ stop.NoMemory };

    fn from(_fault: AllocError) -> FlowStop {
        FlowStop::NoMemory
    }
}
