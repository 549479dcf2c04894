//! The arguments of a call, which stand on the stack (Glulx 3.1.3, "Miscellaneous").

ghost use Rattle.std.specs.Prelude.{◌≡◌, replicate, slice_set};
ghost use Rattle.glk_dispatch.specs.Answer.{AnswersAndLeaves};
ghost use Rattle.glk_dispatch.specs.Arguments as arguments;

use crate::fault::{BAD_ARGUMENT, UNDERFLOW, of_stack};
use vm_memory::Trap;
use vm_stack::Stack;

/// The most arguments that a call uses.
pub(crate) const MAX_ARGUMENTS: usize = 5;

fn pop(stack: &mut Stack) -> Result<u32, Trap>
    ensures { AnswersAndLeaves (arguments.argument_popped stack.old) stack.new result }
{
    stack.pop().map_err(of_stack)
}

fn takes(count: Option<u32>, given: u32) -> bool
    ensures { result ≡ arguments.takes_count count given }
{
    match count {
        Some(count) => given == count,
        None => true,
    }
}

/// Takes the `given` arguments of a call, the first from the top. A call without a count takes any.
pub(crate) fn take_arguments(
    stack: &mut Stack,
    count: Option<u32>,
    given: u32,
) -> Result<[u32; MAX_ARGUMENTS], Trap>
    ensures { AnswersAndLeaves (arguments.call_arguments stack.old count given) stack.new result }
{
    if stack.count() < given {
        return Err(UNDERFLOW);
    }
    if !takes(count, given) {
        return Err(BAD_ARGUMENT);
    }
    take(stack, given)
}

// Keeps an argument in its place, where there is one.
#[tactic(auto, using(crate::proofs::StepLemmas::set_outside))]
fn keep(args: &mut [u32; MAX_ARGUMENTS], index: u32, value: u32)
    ensures { args.new ≡ slice_set args.old index value }
{
    if (index as usize) < MAX_ARGUMENTS {
        args[index as usize] = value;
    }
}

fn take(stack: &mut Stack, given: u32) -> Result<[u32; MAX_ARGUMENTS], Trap>
    ensures { AnswersAndLeaves (arguments.arguments_taken given stack.old 0 (replicate 5 0))
        stack.new result }
{
    let mut args = [0; MAX_ARGUMENTS];
    let mut index: u32 = 0;
    while index < given {
        let value = pop(stack)?;
        keep(&mut args, index, value);
        index += 1;
    }
    Ok(args)
}
