//! A call: its selector, its arguments, its work (Glk 0.7.5, "The Dispatch Layer").

ghost use Rattle.std.specs.Prelude.{◌≡◌, slice_index, OnOk};
ghost use Rattle.glk_dispatch.specs.Answer.{DoesCall, glk_call};
ghost use Rattle.glk_dispatch.specs.Call as table;
ghost use Rattle.glk_dispatch.specs.Keeping.{KeepsStory};
ghost use Rattle.glk_dispatch.specs.Valid.{LeavesValid};

use crate::arguments::{MAX_ARGUMENTS, take_arguments};
use crate::base::do_base;
use crate::called::Called;
use crate::case::do_case;
use crate::events::do_event;
use crate::fault::BAD_SELECTOR;
use crate::filerefs::do_fileref;
use crate::glk::Glk;
use crate::output::do_output;
use crate::selector::Call;
use crate::streams::do_stream;
use crate::style::do_style;
use crate::windows::do_window;
use std::alloc::Global;
use vm_memory::{Memory, Trap};
use vm_stack::Stack;

/// Does the call of this selector with so many arguments from the stack. Faults are 20 for a number
/// that no call has, 4 for too few values, 22 for a wrong count; then those of the arguments from
/// left to right, 21 for no live object and 22 for a value that the call doesn't take; then what
/// memory and output meet, 1 to 3, 15 and 23.
pub fn call(
    alloc: Global,
    glk: &mut Glk,
    memory: &mut Memory,
    stack: &mut Stack,
    selector: u32,
    args: u32,
) -> Result<Called, Trap>
    ensures does { DoesCall
        (table.selector_called (glk_call glk.old memory.old stack.old) selector args)
        glk.new memory.new stack.new result }
    ensures kept { OnOk result (KeepsStory memory.old stack.old memory.new stack.new) }
    ensures valid { LeavesValid glk.old glk.new result }
{
    match Call::of(selector) {
        Some((call, count)) => {
            let values = take_arguments(stack, count, args)?;
            work(alloc, glk, memory, stack, call, &values)
        }
        None => Err(BAD_SELECTOR),
    }
}

fn work(
    alloc: Global,
    glk: &mut Glk,
    memory: &mut Memory,
    stack: &mut Stack,
    call: Call,
    args: &[u32; MAX_ARGUMENTS],
) -> Result<Called, Trap>
    ensures { DoesCall (table.call_work call (glk_call glk.old memory.old stack.old)
        (slice_index args.now)) glk.new memory.new stack.new result }
{
    match call {
        Call::Base(call) => do_base(glk, memory, stack, call, args),
        Call::Window(call) => do_window(alloc, glk, memory, stack, call, args),
        Call::Stream(call) => do_stream(alloc, glk, memory, stack, call, args),
        Call::FileRef(call) => do_fileref(alloc, glk, memory, stack, call, args),
        Call::Output(call) => do_output(alloc, glk, memory, stack, call, args),
        Call::Style(call) => do_style(glk, memory, stack, call, args),
        Call::Case(call) => do_case(glk, memory, stack, call, args),
        Call::Event(call) => do_event(alloc, glk, memory, stack, call, args),
        Call::Nothing => Ok(Called::Value(0)),
    }
}
