//! The calls of streams (Glk 0.7.5, "Streams").

ghost use Rattle.std.specs.Prelude.{◌≡◌, ◌≤◌, ◌<◌, ◌+◌, ◌-◌, ◌==◌, ◌&&◌, slice_index};
ghost use Rattle.glk_input.specs.Delivery as delivery;
ghost use Rattle.glk_dispatch.specs.Answer.{AnswersOverGlk, ChangesGlk, DoesCall, Gets};
ghost use Rattle.glk_dispatch.specs.Answer.{MakesAnswer, UnlessNoMemory};
ghost use Rattle.glk_dispatch.specs.Answer.{CallTakesNoMemory, glk_call};
ghost use Rattle.glk_dispatch.specs.Selector as selector;
ghost use Rattle.glk_dispatch.specs.Streams as rows;
ghost use Rattle.glk_dispatch.specs.Valid.{IsReadyGlk};

use crate::arguments::MAX_ARGUMENTS;
use crate::called::Called;
use crate::fault::{BAD_OBJECT, of_streams};
use crate::glk::Glk;
use crate::output::{width, write_code};
use crate::reference::{refer, refer_all};
use glk_streams::Counts;
use std::alloc::Global;
use vm_memory::{Memory, Trap};
use vm_stack::Stack;

/// A call of streams that puts nothing.
#[derive(Clone, Copy, Debug, PartialEq, Eq)]
pub enum StreamCall {
    Iterate,
    GetRock,
    OpenFile { unicode: bool },
    OpenMemory { unicode: bool },
    Close,
    SetPosition,
    GetPosition,
    SetCurrent,
    GetCurrent,
    OpenResource,
    GetChar { unicode: bool },
    GetLine { unicode: bool },
    GetBuffer { unicode: bool },
}

const NEWLINE: u32 = 10;

/// What a read answers at the end of a stream, -1.
const END: u32 = 0xFFFF_FFFF;

#[tactic(auto, unfolding(crate::specs::Selector::stream_calls))]
pub(crate) fn stream_call(number: u32) -> Option<(StreamCall, u32)>
    ensures { result ≡ selector.at_number selector.stream_calls number }
{
    Some(match number {
        0x40 => (StreamCall::Iterate, 2),
        0x41 => (StreamCall::GetRock, 1),
        0x42 => (StreamCall::OpenFile { unicode: false }, 3),
        0x138 => (StreamCall::OpenFile { unicode: true }, 3),
        0x43 => (StreamCall::OpenMemory { unicode: false }, 4),
        0x139 => (StreamCall::OpenMemory { unicode: true }, 4),
        0x44 => (StreamCall::Close, 2),
        0x45 => (StreamCall::SetPosition, 3),
        0x46 => (StreamCall::GetPosition, 1),
        0x47 => (StreamCall::SetCurrent, 1),
        0x48 => (StreamCall::GetCurrent, 0),
        0x49 | 0x13A => (StreamCall::OpenResource, 2),
        0x90 => (StreamCall::GetChar { unicode: false }, 1),
        0x130 => (StreamCall::GetChar { unicode: true }, 1),
        0x91 => (StreamCall::GetLine { unicode: false }, 3),
        0x132 => (StreamCall::GetLine { unicode: true }, 3),
        0x92 => (StreamCall::GetBuffer { unicode: false }, 3),
        0x131 => (StreamCall::GetBuffer { unicode: true }, 3),
        _ => return None,
    })
}

fn iterate(
    glk: &mut Glk,
    memory: &mut Memory,
    stack: &mut Stack,
    stream: u32,
    rock: u32,
) -> Result<Called, Trap>
    ensures { DoesCall (rows.iterates_streams (glk_call glk.old memory.old stack.old) stream rock)
        glk.new memory.new stack.new result }
{
    if !glk.is_stream_or_none(stream) {
        return Err(BAD_OBJECT);
    }
    let next = glk.streams.stream_after(stream);
    refer(memory, stack, rock, glk.streams.rock(next))?;
    Ok(Called::Value(next))
}

fn open_file(
    alloc: Global,
    glk: &mut Glk,
    fref: u32,
    mode: u32,
    rock: u32,
    unicode: bool,
) -> Result<u32, Trap>
    ensures { AnswersOverGlk (rows.file_opened glk.old fref mode rock unicode) glk.new result }
{
    match glk.streams.open_file(alloc, fref, mode, rock, unicode) {
        Ok(stream) => Ok(stream),
        Err(stop) => Err(of_streams(stop)),
    }
}

fn open_memory(
    alloc: Global,
    glk: &mut Glk,
    buf: u32,
    len: u32,
    mode: u32,
    rock: u32,
    unicode: bool,
) -> Result<u32, Trap>
    ensures { AnswersOverGlk (rows.memory_opened glk.old buf len mode rock unicode) glk.new result }
{
    match glk
        .streams
        .open_memory(alloc, buf, len, mode, rock, unicode)
    {
        Ok(stream) => Ok(stream),
        Err(stop) => Err(of_streams(stop)),
    }
}

// Closes a stream that is no window's. No window echoes to it any more.
fn end(glk: &mut Glk, stream: u32) -> Result<Counts, Trap>
    ensures { AnswersOverGlk (rows.glk_without_stream glk.old stream) glk.new result }
{
    match glk.streams.close(stream) {
        Ok(counts) => {
            glk.windows.end_echo(stream);
            Ok(counts)
        }
        Err(stop) => Err(of_streams(stop)),
    }
}

fn close(
    glk: &mut Glk,
    memory: &mut Memory,
    stack: &mut Stack,
    stream: u32,
    result_at: u32,
) -> Result<Called, Trap>
    ensures { DoesCall (rows.closes_stream (glk_call glk.old memory.old stack.old) stream result_at)
        glk.new memory.new stack.new result }
{
    let counts = end(glk, stream)?;
    refer_all(memory, stack, result_at, &[counts.read, counts.written])?;
    Ok(Called::Value(0))
}

fn seek(glk: &mut Glk, stream: u32, place: u32, from: u32) -> Result<(), Trap>
    ensures { ChangesGlk (rows.position_moved glk.old stream place from) glk.new result }
{
    match glk.streams.seek(stream, place, from) {
        Ok(()) => Ok(()),
        Err(stop) => Err(of_streams(stop)),
    }
}

/// A stream's position; fault 21 where it isn't live.
pub fn position(glk: &Glk, stream: u32) -> Result<u32, Trap>
    ensures value { MakesAnswer (rows.stream_position glk.now stream) result }
    ensures refusal { CallTakesNoMemory result }
{
    match glk.streams.position(stream) {
        Ok(place) => Ok(place),
        Err(stop) => Err(of_streams(stop)),
    }
}

fn set_current(glk: &mut Glk, stream: u32) -> Result<(), Trap>
    ensures { ChangesGlk (rows.current_set glk.old stream) glk.new result }
{
    match glk.streams.set_current(stream) {
        Ok(()) => Ok(()),
        Err(stop) => Err(of_streams(stop)),
    }
}

// A character of a stream, without a count.
fn get_of_stream(glk: &mut Glk, memory: &Memory, stream: u32) -> Result<Option<u32>, Trap>
    ensures value { AnswersOverGlk (rows.char_got glk.old memory.now stream) glk.new result }
    ensures refusal { CallTakesNoMemory result }
{
    match glk.streams.get(memory, stream) {
        Ok(code) => Ok(code),
        Err(stop) => Err(of_streams(stop)),
    }
}

/// A character of a stream, which is counted as read; None at the end.
pub fn get_code(glk: &mut Glk, memory: &Memory, stream: u32) -> Result<Option<u32>, Trap>
    ensures does { AnswersOverGlk (rows.got_code glk.old memory.now stream) glk.new result }
    ensures valid { UnlessNoMemory result (IsReadyGlk glk.old → IsReadyGlk glk.new) }
    ensures refusal { CallTakesNoMemory result }
{
    let code = get_of_stream(glk, memory, stream)?;
    if code.is_some() {
        glk.charge();
    }
    Ok(code)
}

/// Reads the bytes ahead of a plain stream of a file (`Streams::bytes_ahead`), to its end; each is
/// counted as a character that is read. Another stream stays as it is.
pub fn pass_ahead(glk: &mut Glk, stream: u32)
    ensures does { glk.new ≡ rows.ahead_read glk.old stream }
    ensures valid { IsReadyGlk glk.old → IsReadyGlk glk.new }
{
    let count = glk.streams.pass_ahead(stream);
    glk.charge_all(count);
}

fn code_or_end(unicode: bool, code: Option<u32>) -> u32
    ensures { result ≡ rows.code_or_end unicode code }
{
    match code {
        Some(code) => taken(unicode, code),
        None => END,
    }
}

// A plain read of a code above 255 gives `?`.
fn taken(unicode: bool, code: u32) -> u32
    ensures { result ≡ delivery.code_taken unicode code }
{
    if !unicode && code > 255 {
        u32::from('?')
    } else {
        code
    }
}

// A character of a stream goes to an address.
fn get_item(
    glk: &mut Glk,
    memory: &mut Memory,
    stream: u32,
    unicode: bool,
    at: u32,
) -> Result<Option<u32>, Trap>
    ensures { Gets (rows.got_item unicode glk.old memory.old stream at) glk.new memory.new result }
{
    match get_code(glk, memory, stream)? {
        Some(code) => {
            write_code(memory, unicode, at, taken(unicode, code))?;
            Ok(Some(code))
        }
        None => Ok(None),
    }
}

// Whether a line ends behind the character.
fn ends(line: bool, code: u32) -> bool
    ensures { result ≡ (line && code == 10) }
{
    line && code == NEWLINE
}

// At most so many characters of a stream go to an array; the count. A line ends behind its newline.
fn get_array(
    glk: &mut Glk,
    memory: &mut Memory,
    stream: u32,
    unicode: bool,
    line: bool,
    buf: u32,
    most: u32,
) -> Result<u32, Trap>
    ensures { Gets (rows.got_array most line unicode glk.old memory.old stream buf 0)
        glk.new memory.new result }
{
    let mut at = buf;
    let mut count = 0;
    while count < most {
        let Some(code) = get_item(glk, memory, stream, unicode, at)? else {
            return Ok(count);
        };
        count += 1;
        if ends(line, code) {
            return Ok(count);
        }
        at = at.wrapping_add(width(unicode));
    }
    Ok(count)
}

// A line, and a zero behind it.
fn get_line(
    glk: &mut Glk,
    memory: &mut Memory,
    stream: u32,
    unicode: bool,
    buf: u32,
    len: u32,
) -> Result<u32, Trap>
    requires { 0 < len }
    ensures { Gets (rows.got_line unicode glk.old memory.old stream buf len)
        glk.new memory.new result }
{
    let count = get_array(glk, memory, stream, unicode, true, buf, len - 1)?;
    let behind = buf.wrapping_add(width(unicode).wrapping_mul(count));
    write_code(memory, unicode, behind, 0)?;
    Ok(count)
}

fn read_line(
    glk: &mut Glk,
    memory: &mut Memory,
    stream: u32,
    unicode: bool,
    buf: u32,
    len: u32,
) -> Result<u32, Trap>
    ensures { Gets (rows.line_read unicode glk.old memory.old stream buf len)
        glk.new memory.new result }
{
    if !glk.is_stream(stream) {
        return Err(BAD_OBJECT);
    }
    if len == 0 {
        return Ok(0);
    }
    get_line(glk, memory, stream, unicode, buf, len)
}

fn read_buffer(
    glk: &mut Glk,
    memory: &mut Memory,
    stream: u32,
    unicode: bool,
    buf: u32,
    len: u32,
) -> Result<u32, Trap>
    ensures { Gets (rows.buffer_read unicode glk.old memory.old stream buf len)
        glk.new memory.new result }
{
    if !glk.is_stream(stream) {
        return Err(BAD_OBJECT);
    }
    get_array(glk, memory, stream, unicode, false, buf, len)
}

fn read_char(glk: &mut Glk, memory: &Memory, stream: u32, unicode: bool) -> Result<u32, Trap>
    ensures { AnswersOverGlk (rows.char_read unicode glk.old memory.now stream) glk.new result }
{
    if !glk.is_stream(stream) {
        return Err(BAD_OBJECT);
    }
    let code = get_code(glk, memory, stream)?;
    Ok(code_or_end(unicode, code))
}

#[tactic(auto, unfolding(crate::specs::Streams::stream_work))]
pub(crate) fn do_stream(
    alloc: Global,
    glk: &mut Glk,
    memory: &mut Memory,
    stack: &mut Stack,
    call: StreamCall,
    args: &[u32; MAX_ARGUMENTS],
) -> Result<Called, Trap>
    ensures { DoesCall (rows.stream_work call (glk_call glk.old memory.old stack.old)
        (slice_index args.now)) glk.new memory.new stack.new result }
{
    let stream = args[0];
    match call {
        StreamCall::Iterate => iterate(glk, memory, stack, stream, args[1]),
        StreamCall::GetRock => {
            if !glk.is_stream(stream) {
                return Err(BAD_OBJECT);
            }
            Ok(Called::Value(glk.streams.rock(stream)))
        }
        StreamCall::OpenFile { unicode } => Ok(Called::Value(open_file(
            alloc, glk, args[0], args[1], args[2], unicode,
        )?)),
        StreamCall::OpenMemory { unicode } => Ok(Called::Value(open_memory(
            alloc, glk, args[0], args[1], args[2], args[3], unicode,
        )?)),
        StreamCall::Close => close(glk, memory, stack, stream, args[1]),
        StreamCall::SetPosition => {
            seek(glk, stream, args[1], args[2])?;
            Ok(Called::Value(0))
        }
        StreamCall::GetPosition => Ok(Called::Value(position(glk, stream)?)),
        StreamCall::SetCurrent => {
            set_current(glk, stream)?;
            Ok(Called::Value(0))
        }
        StreamCall::GetCurrent => Ok(Called::Value(glk.streams.current())),
        StreamCall::OpenResource => Ok(Called::Value(0)),
        StreamCall::GetChar { unicode } => {
            Ok(Called::Value(read_char(glk, memory, stream, unicode)?))
        }
        StreamCall::GetLine { unicode } => Ok(Called::Value(read_line(
            glk, memory, stream, unicode, args[1], args[2],
        )?)),
        StreamCall::GetBuffer { unicode } => Ok(Called::Value(read_buffer(
            glk, memory, stream, unicode, args[1], args[2],
        )?)),
    }
}
