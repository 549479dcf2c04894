//! Exit, ticks, and what the library can do (Glk 0.7.5, "Testing for Capabilities").

ghost use Rattle.std.specs.Prelude.{◌≡◌, ◌==◌, if◌then◌else◌, slice_index, Ok};
ghost use Rattle.glk_dispatch.specs.Answer.{DoesCall, WritesMemory, glk_call};
ghost use Rattle.glk_dispatch.specs.Gestalt as rows;
ghost use Rattle.glk_dispatch.specs.Selector as selector;
ghost use Rattle.vm_memory.specs.Access.{written};
ghost use Rattle.vm_memory.specs.Fault.{coded};

use crate::arguments::MAX_ARGUMENTS;
use crate::called::Called;
use crate::glk::Glk;
use story_text::keycode::{is_keycode, is_terminator};
use vm_memory::{Memory, Trap};
use vm_stack::Stack;

/// A call of no other class.
#[derive(Clone, Copy, Debug, PartialEq, Eq)]
pub enum BaseCall {
    Exit,
    SetInterruptHandler,
    Tick,
    Gestalt,
    GestaltExt,
}

/// The version that is told, 0.7.5.
const VERSION: u32 = 0x0000_0705;

const NEWLINE: u32 = 10;

#[tactic(auto, unfolding(crate::specs::Selector::base_calls))]
pub(crate) fn base_call(number: u32) -> Option<(BaseCall, u32)>
    ensures { result ≡ selector.at_number selector.base_calls number }
{
    Some(match number {
        0x01 => (BaseCall::Exit, 0),
        0x02 => (BaseCall::SetInterruptHandler, 1),
        0x03 => (BaseCall::Tick, 0),
        0x04 => (BaseCall::Gestalt, 2),
        0x05 => (BaseCall::GestaltExt, 4),
        _ => return None,
    })
}

fn is_printable(code: u32) -> bool
    ensures { result ≡ rows.is_printable code }
{
    matches!(code, 32..=126 | 160..=0xD7FF | 0xE000..=0x10FFFF)
}

fn gestalt(selector: u32, value: u32) -> u32
    ensures { result ≡ rows.glk_gestalt selector value }
{
    match selector {
        0 => VERSION,
        1 => u32::from(is_printable(value) || is_keycode(value)),
        2 => u32::from(is_printable(value)),
        3 if is_printable(value) || value == NEWLINE => 2,
        15 | 17 | 18 => 1,
        19 => u32::from(is_terminator(value)),
        _ => 0,
    }
}

// `glk_gestalt_ext`: a character is printed as one.
fn gestalt_ext(
    glk: &mut Glk,
    memory: &mut Memory,
    stack: &mut Stack,
    selector: u32,
    value: u32,
    array: u32,
    len: u32,
) -> Result<Called, Trap>
    ensures { DoesCall
        (rows.gestalt_told (glk_call glk.old memory.old stack.old) selector value array len)
        glk.new memory.new stack.new result }
{
    if selector == 3 && len != 0 {
        begin_array(memory, array, 1)?;
    }
    Ok(Called::Value(gestalt(selector, value)))
}

// Writes a word at the start of an array, which is a plain address; nowhere for 0.
fn begin_array(memory: &mut Memory, array: u32, word: u32) -> Result<(), Trap>
    ensures { WritesMemory (if array == 0 then Ok memory.old
        else coded (written 4 memory.old array word))
        memory.new result }
{
    if array == 0 {
        return Ok(());
    }
    Ok(memory.write4(array, word)?)
}

#[tactic(auto, unfolding(crate::specs::Gestalt::base_work))]
pub(crate) fn do_base(
    glk: &mut Glk,
    memory: &mut Memory,
    stack: &mut Stack,
    call: BaseCall,
    args: &[u32; MAX_ARGUMENTS],
) -> Result<Called, Trap>
    ensures { DoesCall (rows.base_work call (glk_call glk.old memory.old stack.old)
        (slice_index args.now)) glk.new memory.new stack.new result }
{
    match call {
        BaseCall::Exit => Ok(Called::Exit),
        BaseCall::SetInterruptHandler | BaseCall::Tick => Ok(Called::Value(0)),
        BaseCall::Gestalt => Ok(Called::Value(gestalt(args[0], args[1]))),
        BaseCall::GestaltExt => gestalt_ext(glk, memory, stack, args[0], args[1], args[2], args[3]),
    }
}
