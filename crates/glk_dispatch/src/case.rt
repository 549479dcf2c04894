//! Case (Glk 0.7.5, "Upper and Lower Case").

ghost use Rattle.std.specs.Prelude.{◌≡◌, slice_index};
ghost use Rattle.glk_dispatch.specs.Answer.{DoesCall, MakesAnswer, LeavesGlkAndMemory, glk_call};
ghost use Rattle.glk_dispatch.specs.Case as rows;
ghost use Rattle.glk_dispatch.specs.Selector as selector;

use crate::arguments::MAX_ARGUMENTS;
use crate::called::Called;
use crate::fault::BAD_ARGUMENT;
use crate::glk::Glk;
use vm_memory::{Memory, Trap};
use vm_stack::Stack;

/// A call of case.
#[derive(Clone, Copy, Debug, PartialEq, Eq)]
pub enum CaseCall {
    CharToLower,
    CharToUpper,
    BufferToLower,
    BufferToUpper,
    BufferToTitle,
}

/// To which case letters go.
#[derive(Clone, Copy, Debug, PartialEq, Eq)]
pub(crate) enum Case {
    Lower,
    Upper,
}

#[tactic(auto, unfolding(crate::specs::Selector::case_calls))]
pub(crate) fn case_call(number: u32) -> Option<(CaseCall, u32)>
    ensures { result ≡ selector.at_number selector.case_calls number }
{
    Some(match number {
        0xA0 => (CaseCall::CharToLower, 1),
        0xA1 => (CaseCall::CharToUpper, 1),
        0x120 => (CaseCall::BufferToLower, 3),
        0x121 => (CaseCall::BufferToUpper, 3),
        0x122 => (CaseCall::BufferToTitle, 4),
        _ => return None,
    })
}

fn lower(code: u32) -> u32
    ensures { result ≡ rows.lower code }
{
    match code {
        0x41..=0x5A | 0xC0..=0xD6 | 0xD8..=0xDE => code + 0x20,
        _ => code,
    }
}

fn upper(code: u32) -> u32
    ensures { result ≡ rows.upper code }
{
    match code {
        0x61..=0x7A | 0xE0..=0xF6 | 0xF8..=0xFE => code - 0x20,
        _ => code,
    }
}

fn in_case(case: Case, code: u32) -> u32
    ensures { result ≡ rows.in_case case code }
{
    match case {
        Case::Lower => lower(code),
        Case::Upper => upper(code),
    }
}

// A word of an array goes to another case.
fn change_word(glk: &mut Glk, memory: &mut Memory, case: Case, at: u32) -> Result<(), Trap>
    ensures { LeavesGlkAndMemory (rows.word_cased case glk.old memory.old at)
        glk.new memory.new result }
{
    let code = memory.read4(at)?;
    glk.charge();
    memory.write4(at, in_case(case, code))?;
    Ok(())
}

fn change_words(
    glk: &mut Glk,
    memory: &mut Memory,
    case: Case,
    from: u32,
    count: u32,
) -> Result<(), Trap>
    ensures { LeavesGlkAndMemory (rows.words_cased count case glk.old memory.old from)
        glk.new memory.new result }
{
    let mut at = from;
    let mut left = count;
    while left > 0 {
        change_word(glk, memory, case, at)?;
        at = at.wrapping_add(4);
        left -= 1;
    }
    Ok(())
}

// The first word in upper case, and the others in lower case where that is asked for.
fn change_title(
    glk: &mut Glk,
    memory: &mut Memory,
    buf: u32,
    count: u32,
    others: bool,
) -> Result<(), Trap>
    ensures { LeavesGlkAndMemory (rows.title_cased count others glk.old memory.old buf)
        glk.new memory.new result }
{
    change_words(glk, memory, Case::Upper, buf, count.min(1))?;
    let left = if others { count.saturating_sub(1) } else { 0 };
    change_words(glk, memory, Case::Lower, buf.wrapping_add(4), left)
}

// No more characters than the array has.
fn check_count(len: u32, count: u32) -> Result<(), Trap>
    ensures { MakesAnswer (rows.within_array len count) result }
{
    if count <= len {
        Ok(())
    } else {
        Err(BAD_ARGUMENT)
    }
}

#[tactic(auto, unfolding(crate::specs::Case::case_work))]
pub(crate) fn do_case(
    glk: &mut Glk,
    memory: &mut Memory,
    stack: &mut Stack,
    call: CaseCall,
    args: &[u32; MAX_ARGUMENTS],
) -> Result<Called, Trap>
    ensures { DoesCall (rows.case_work call (glk_call glk.old memory.old stack.old)
        (slice_index args.now)) glk.new memory.new stack.new result }
{
    match call {
        CaseCall::CharToLower => return Ok(Called::Value(lower(args[0]))),
        CaseCall::CharToUpper => return Ok(Called::Value(upper(args[0]))),
        CaseCall::BufferToLower => {
            check_count(args[1], args[2])?;
            change_words(glk, memory, Case::Lower, args[0], args[2])?;
        }
        CaseCall::BufferToUpper => {
            check_count(args[1], args[2])?;
            change_words(glk, memory, Case::Upper, args[0], args[2])?;
        }
        CaseCall::BufferToTitle => {
            check_count(args[1], args[2])?;
            change_title(glk, memory, args[0], args[2], args[3] != 0)?;
        }
    }
    Ok(Called::Value(args[2]))
}
