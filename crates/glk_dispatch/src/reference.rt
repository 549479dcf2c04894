//! What a call leaves at its references (Glk 0.7.5, "The Dispatch Layer").

ghost use Rattle.std.specs.Prelude.{◌≡◌};
ghost use Rattle.glk_dispatch.specs.Answer.{LeavesMemoryAndStack};
ghost use Rattle.glk_dispatch.specs.Reference as reference;

use crate::fault::of_stack;
use vm_memory::{Memory, Trap};
use vm_stack::Stack;

/// The reference to the stack.
const STACK: u32 = 0xFFFF_FFFF;

/// Leaves a word at a reference: nowhere for 0, on the stack for 0xFFFFFFFF, else at the address.
pub(crate) fn refer(memory: &mut Memory, stack: &mut Stack, at: u32, value: u32) -> Result<(), Trap>
    ensures { LeavesMemoryAndStack (reference.word_referred memory.old stack.old at value)
        memory.new stack.new result }
{
    match at {
        0 => Ok(()),
        STACK => stack.push(value).map_err(of_stack),
        _ => Ok(memory.write4(at, value)?),
    }
}

fn next_field(at: u32) -> u32
    ensures { result ≡ reference.next_field at }
{
    if at == 0 || at == STACK {
        at
    } else {
        at.wrapping_add(4)
    }
}

/// Leaves a structure's words in order at a reference, the last on top of the stack. No structure
/// has more than four words.
pub(crate) fn refer_all(
    memory: &mut Memory,
    stack: &mut Stack,
    at: u32,
    values: &[u32],
) -> Result<(), Trap>
    ensures { LeavesMemoryAndStack (reference.referred_all memory.old stack.old at values.now)
        memory.new stack.new result }
{
    match values {
        [] => Ok(()),
        [first, rest @ ..] => {
            refer(memory, stack, at, *first)?;
            refer_all(memory, stack, next_field(at), rest)
        }
    }
}
