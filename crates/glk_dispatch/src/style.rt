//! Styles (Glk 0.7.5, "Styles").

ghost use Rattle.std.specs.Prelude.{◌≡◌, slice_index};
ghost use Rattle.glk_dispatch.specs.Answer.{ChangesGlk, DoesCall, glk_call};
ghost use Rattle.glk_dispatch.specs.Selector as selector;
ghost use Rattle.glk_dispatch.specs.Style as rows;

use crate::arguments::MAX_ARGUMENTS;
use crate::called::Called;
use crate::fault::{BAD_OBJECT, of_streams};
use crate::glk::Glk;
use vm_memory::{Memory, Trap};
use vm_stack::Stack;

/// A call of styles.
#[derive(Clone, Copy, Debug, PartialEq, Eq)]
pub enum StyleCall {
    Set,
    SetStream,
    HintSet,
    HintClear,
    Distinguish,
    Measure,
}

#[tactic(auto, unfolding(crate::specs::Selector::style_calls))]
pub(crate) fn style_call(number: u32) -> Option<(StyleCall, u32)>
    ensures { result ≡ selector.at_number selector.style_calls number }
{
    Some(match number {
        0x86 => (StyleCall::Set, 1),
        0x87 => (StyleCall::SetStream, 2),
        0xB0 => (StyleCall::HintSet, 4),
        0xB1 => (StyleCall::HintClear, 3),
        0xB2 => (StyleCall::Distinguish, 3),
        0xB3 => (StyleCall::Measure, 4),
        _ => return None,
    })
}

// The style of a stream; nothing for 0.
fn set_style(glk: &mut Glk, stream: u32, style: u32) -> Result<(), Trap>
    ensures { ChangesGlk (rows.glk_styled glk.old stream style) glk.new result }
{
    if stream == 0 {
        return Ok(());
    }
    match glk.streams.set_style(stream, style) {
        Ok(()) => Ok(()),
        Err(stop) => Err(of_streams(stop)),
    }
}

#[tactic(auto, unfolding(crate::specs::Style::style_work))]
pub(crate) fn do_style(
    glk: &mut Glk,
    memory: &mut Memory,
    stack: &mut Stack,
    call: StyleCall,
    args: &[u32; MAX_ARGUMENTS],
) -> Result<Called, Trap>
    ensures { DoesCall (rows.style_work call (glk_call glk.old memory.old stack.old)
        (slice_index args.now)) glk.new memory.new stack.new result }
{
    match call {
        StyleCall::Set => {
            let stream = glk.streams.current();
            set_style(glk, stream, args[0])?;
        }
        StyleCall::SetStream => {
            if !glk.is_stream(args[0]) {
                return Err(BAD_OBJECT);
            }
            set_style(glk, args[0], args[1])?;
        }
        StyleCall::HintSet | StyleCall::HintClear => {}
        StyleCall::Distinguish | StyleCall::Measure => {
            if !glk.is_window(args[0]) {
                return Err(BAD_OBJECT);
            }
        }
    }
    Ok(Called::Value(0))
}
