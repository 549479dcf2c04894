//! Arguments from the stack.

ghost use Rattle.std.specs.Prelude.{◌≡◌, [], ◌∷◌, ◌++◌, OnOk, IfErr};
ghost use Rattle.vm_exec.specs.Answer.{LeavesTwoValues};
ghost use Rattle.vm_exec.specs.Rules as rules;
ghost use Rattle.vm_stack.specs.Chain.{Chain, HasFrame};
ghost use Rattle.vm_memory.specs.declared.fault.Trap.TheVariants.{NoMemory};

use crate::trap::{no_memory, of_stack};
use smallvec::SmallVec;
use vm_memory::Trap;
use vm_stack::Stack;

/// The arguments of a call. So many of them take no memory of the host.
pub(crate) type Arguments = SmallVec<u32, 8>;

/// Takes the top values, the top first, into no arguments. Fault 4 where fewer are there.
pub(crate) fn take_arguments(
    stack: &mut Stack,
    count: u32,
    args: &mut Arguments,
) -> Result<(), Trap>
    requires { args.old.items ≡ [] }
    ensures does { LeavesTwoValues (rules.arguments stack.old count)
        stack.new args.new.items result }
    ensures kept { Chain stack.old → HasFrame stack.old
        → OnOk result (Chain stack.new × HasFrame stack.new) }
{
    for _ in 0..count {
        let value = match stack.pop() {
            Ok(value) => value,
            Err(fault) => return Err(of_stack(fault)),
        };
        match args.push(value) {
            Ok(()) => {}
            Err(_) => return Err(Trap::NoMemory),
        }
    }
    Ok(())
}

/// One word more.
pub(crate) fn keep(args: &mut Vec<u32>, value: u32) -> Result<(), Trap>
    ensures items { OnOk result (args.new.items ≡ args.old.items ++ value ∷ []) }
    ensures cause { IfErr result (λ trap. trap ≡ NoMemory) }
{
    args.extend_from_slice(&[value]).map_err(no_memory)
}
