//! Output of characters, one by one (Glk 0.7.5, "How To Print").

ghost use Rattle.std.specs.Prelude.{◌≡◌, ◌≤◌, ◌+◌, length, slice_index, OnOk};
ghost use Rattle.glk_input.specs.Delivery.{width};
ghost use Rattle.glk_dispatch.specs.Answer.{DoesCall, MakesAnswer, LeavesGlkAndMemory};
ghost use Rattle.glk_dispatch.specs.Answer.{UnlessNoMemory, WritesMemory, glk_call};
ghost use Rattle.glk_dispatch.specs.Output as rows;
ghost use Rattle.glk_dispatch.specs.Selector as selector;
ghost use Rattle.glk_dispatch.specs.Valid.{IsReadyGlk};
ghost use Rattle.vm_memory.specs.MemoryMap.{KeepsMap};

use crate::arguments::MAX_ARGUMENTS;
use crate::called::Called;
use crate::fault::{BAD_OBJECT, BAD_READ, BAD_STRING, FLOOD, of_streams};
use crate::glk::Glk;
use std::alloc::Global;
use vm_memory::{Memory, Trap};
use vm_stack::Stack;

/// The most characters that windows show in a turn.
pub const MAX_PRINTED: u32 = 1_048_576;

/// A call that puts characters, to the current stream or to one that is named.
#[derive(Clone, Copy, Debug, PartialEq, Eq)]
pub enum OutputCall {
    PutChar { unicode: bool },
    PutCharStream { unicode: bool },
    PutString { unicode: bool },
    PutStringStream { unicode: bool },
    PutBuffer { unicode: bool },
    PutBufferStream { unicode: bool },
}

#[tactic(auto, unfolding(crate::specs::Selector::output_calls))]
pub(crate) fn output_call(number: u32) -> Option<(OutputCall, u32)>
    ensures { result ≡ selector.at_number selector.output_calls number }
{
    Some(match number {
        0x80 => (OutputCall::PutChar { unicode: false }, 1),
        0x128 => (OutputCall::PutChar { unicode: true }, 1),
        0x81 => (OutputCall::PutCharStream { unicode: false }, 2),
        0x12B => (OutputCall::PutCharStream { unicode: true }, 2),
        0x82 => (OutputCall::PutString { unicode: false }, 1),
        0x129 => (OutputCall::PutString { unicode: true }, 1),
        0x83 => (OutputCall::PutStringStream { unicode: false }, 2),
        0x12C => (OutputCall::PutStringStream { unicode: true }, 2),
        0x84 => (OutputCall::PutBuffer { unicode: false }, 2),
        0x12A => (OutputCall::PutBuffer { unicode: true }, 2),
        0x85 => (OutputCall::PutBufferStream { unicode: false }, 3),
        0x12D => (OutputCall::PutBufferStream { unicode: true }, 3),
        _ => return None,
    })
}

// A stream takes a character.
fn put_to_stream(
    alloc: Global,
    glk: &mut Glk,
    memory: &mut Memory,
    stream: u32,
    code: u32,
) -> Result<(), Trap>
    ensures { LeavesGlkAndMemory (rows.streamed glk.old memory.old stream code)
        glk.new memory.new result }
{
    match glk.streams.put(alloc, memory, stream, code) {
        Ok(()) => Ok(()),
        Err(stop) => Err(of_streams(stop)),
    }
}

/// Puts a character to one stream in this style.
pub(crate) fn put_once(
    alloc: Global,
    glk: &mut Glk,
    memory: &mut Memory,
    stream: u32,
    style: u32,
    code: u32,
) -> Result<(), Trap>
    ensures { LeavesGlkAndMemory (rows.put_once glk.old memory.old stream style code)
        glk.new memory.new result }
{
    let win = glk.streams.window_of(stream);
    if win == 0 {
        return put_to_stream(alloc, glk, memory, stream, code);
    }
    if glk.printed >= MAX_PRINTED {
        return Err(FLOOD);
    }
    if glk.windows.put(alloc, win, code, style).is_err() {
        return Err(Trap::NoMemory);
    }
    glk.printed += 1;
    put_to_stream(alloc, glk, memory, stream, code)
}

/// The stream to which the output of a window's stream goes too, or 0.
pub(crate) fn echo_from(glk: &Glk, stream: u32) -> u32
    ensures { result ≡ rows.echo_from glk.now stream }
{
    glk.windows.echo(glk.streams.window_of(stream))
}

// Puts a character to a stream, to its window's echo stream, and so on.
fn spread(
    alloc: Global,
    glk: &mut Glk,
    memory: &mut Memory,
    from: u32,
    code: u32,
    steps: usize,
) -> Result<(), Trap>
    ensures { LeavesGlkAndMemory (rows.spread steps glk.old memory.old from code)
        glk.new memory.new result }
{
    let mut stream = from;
    let mut left = steps;
    while left > 0 && stream != 0 {
        let style = glk.streams.style(stream);
        put_once(alloc, glk, memory, stream, style, code)?;
        stream = echo_from(glk, stream);
        left -= 1;
    }
    Ok(())
}

/// The same as far as the echoes go: no chain is longer than the windows and a last stream.
pub(crate) fn spread_all(
    alloc: Global,
    glk: &mut Glk,
    memory: &mut Memory,
    stream: u32,
    code: u32,
) -> Result<(), Trap>
    ensures { LeavesGlkAndMemory (rows.spread_all glk.old memory.old stream code)
        glk.new memory.new result }
{
    let steps = glk.windows.slots().len() + 1;
    spread(alloc, glk, memory, stream, code, steps)
}

/// Puts a character to a stream, 0 for none, and counts it.
pub fn put_code(
    alloc: Global,
    glk: &mut Glk,
    memory: &mut Memory,
    stream: u32,
    code: u32,
) -> Result<(), Trap>
    ensures does { LeavesGlkAndMemory (rows.put_code glk.old memory.old stream code)
        glk.new memory.new result }
    ensures kept { OnOk result (KeepsMap memory.old memory.new) }
    ensures valid { UnlessNoMemory result (IsReadyGlk glk.old → IsReadyGlk glk.new) }
{
    glk.charge();
    spread_all(alloc, glk, memory, stream, code)
}

/// How many bytes a character of an array has.
pub(crate) fn width(unicode: bool) -> u32
    ensures { result ≡ width unicode }
{
    if unicode { 4 } else { 1 }
}

/// The character at an address of an array.
pub(crate) fn read_code(memory: &Memory, unicode: bool, at: u32) -> Result<u32, Trap>
    ensures { MakesAnswer (rows.array_code_at unicode memory.now at) result }
{
    if unicode {
        Ok(memory.read4(at)?)
    } else {
        Ok(memory.read1(at)?)
    }
}

/// Writes a character of an array to an address.
pub(crate) fn write_code(memory: &mut Memory, unicode: bool, at: u32, code: u32) -> Result<(), Trap>
    ensures { WritesMemory (rows.code_written unicode memory.old at code) memory.new result }
{
    if unicode {
        Ok(memory.write4(at, code)?)
    } else {
        Ok(memory.write1(at, code)?)
    }
}

fn put_item(
    alloc: Global,
    glk: &mut Glk,
    memory: &mut Memory,
    stream: u32,
    unicode: bool,
    at: u32,
) -> Result<(), Trap>
    ensures { LeavesGlkAndMemory (rows.put_item unicode glk.old memory.old stream at)
        glk.new memory.new result }
{
    let code = read_code(memory, unicode, at)?;
    put_code(alloc, glk, memory, stream, code)
}

// Puts so many characters of an array.
fn put_array(
    alloc: Global,
    glk: &mut Glk,
    memory: &mut Memory,
    stream: u32,
    unicode: bool,
    from: u32,
    count: u32,
) -> Result<(), Trap>
    ensures { LeavesGlkAndMemory (rows.put_array count unicode glk.old memory.old stream from)
        glk.new memory.new result }
{
    let mut at = from;
    let mut left = count;
    while left > 0 {
        put_item(alloc, glk, memory, stream, unicode, at)?;
        at = at.wrapping_add(width(unicode));
        left -= 1;
    }
    Ok(())
}

/// Where the characters of a string argument begin.
pub(crate) fn text_start(memory: &Memory, unicode: bool, at: u32) -> Result<u32, Trap>
    ensures { MakesAnswer (rows.text_start unicode memory.now at) result }
{
    let kind = memory.read1(at)?;
    if kind != if unicode { 0xE2 } else { 0xE0 } {
        return Err(BAD_STRING);
    }
    Ok(at.wrapping_add(if unicode { 4 } else { 1 }))
}

// Puts the characters of a string up to its 0.
fn put_text(
    alloc: Global,
    glk: &mut Glk,
    memory: &mut Memory,
    stream: u32,
    unicode: bool,
    from: u32,
    most: u32,
) -> Result<(), Trap>
    ensures { LeavesGlkAndMemory (rows.put_text most unicode glk.old memory.old stream from)
        glk.new memory.new result }
{
    let mut at = from;
    let mut left = most;
    while left > 0 {
        let code = read_code(memory, unicode, at)?;
        if code == 0 {
            return Ok(());
        }
        put_code(alloc, glk, memory, stream, code)?;
        at = at.wrapping_add(width(unicode));
        left -= 1;
    }
    Err(BAD_READ)
}

fn put_string(
    alloc: Global,
    glk: &mut Glk,
    memory: &mut Memory,
    stream: u32,
    unicode: bool,
    at: u32,
) -> Result<(), Trap>
    ensures { LeavesGlkAndMemory (rows.put_string unicode glk.old memory.old stream at)
        glk.new memory.new result }
{
    let from = text_start(memory, unicode, at)?;
    let most = memory.size() + 1;
    put_text(alloc, glk, memory, stream, unicode, from, most)
}

// A plain character is the low byte.
fn char_of(unicode: bool, code: u32) -> u32
    ensures { result ≡ rows.plain_or_unicode unicode code }
{
    if unicode { code } else { code & 0xFF }
}

/// Puts a character in a style to a window's stream and its echo streams, uncounted.
#[tactic(auto, unfolding(crate::specs::Output::echo_put))]
pub(crate) fn echo_put(
    alloc: Global,
    glk: &mut Glk,
    memory: &mut Memory,
    stream: u32,
    style: u32,
    code: u32,
) -> Result<(), Trap>
    ensures { LeavesGlkAndMemory (rows.echo_put glk.old memory.old stream style code)
        glk.new memory.new result }
{
    put_once(alloc, glk, memory, stream, style, code)?;
    let next = echo_from(glk, stream);
    spread_all(alloc, glk, memory, next, code)
}

#[tactic(auto, unfolding(crate::specs::Output::output_work))]
pub(crate) fn do_output(
    alloc: Global,
    glk: &mut Glk,
    memory: &mut Memory,
    stack: &mut Stack,
    call: OutputCall,
    args: &[u32; MAX_ARGUMENTS],
) -> Result<Called, Trap>
    ensures { DoesCall (rows.output_work call (glk_call glk.old memory.old stack.old)
        (slice_index args.now)) glk.new memory.new stack.new result }
{
    let current = glk.streams.current();
    match call {
        OutputCall::PutChar { unicode } => {
            put_code(alloc, glk, memory, current, char_of(unicode, args[0]))?;
        }
        OutputCall::PutCharStream { unicode } => {
            if !glk.is_stream(args[0]) {
                return Err(BAD_OBJECT);
            }
            put_code(alloc, glk, memory, args[0], char_of(unicode, args[1]))?;
        }
        OutputCall::PutString { unicode } => {
            put_string(alloc, glk, memory, current, unicode, args[0])?;
        }
        OutputCall::PutStringStream { unicode } => {
            if !glk.is_stream(args[0]) {
                return Err(BAD_OBJECT);
            }
            put_string(alloc, glk, memory, args[0], unicode, args[1])?;
        }
        OutputCall::PutBuffer { unicode } => {
            put_array(alloc, glk, memory, current, unicode, args[0], args[1])?;
        }
        OutputCall::PutBufferStream { unicode } => {
            if !glk.is_stream(args[0]) {
                return Err(BAD_OBJECT);
            }
            put_array(alloc, glk, memory, args[0], unicode, args[1], args[2])?;
        }
    }
    Ok(Called::Value(0))
}
