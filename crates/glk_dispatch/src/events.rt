//! Events and requests (Glk 0.7.5, "Events", "Line Input Events", "Character Input Events").

ghost use Rattle.std.specs.Prelude.{◌≡◌, ◌≤◌, [], length, slice_index, not, ◌==◌, ◌<◌, ◌+◌, IfOk};
ghost use Rattle.glk_input.specs.Request as request;
ghost use Rattle.glk_dispatch.specs.Answer.{AnswersOverGlk, DoesCall, Gets, LeavesMemoryAndStack};
ghost use Rattle.glk_dispatch.specs.Answer.{Lists, LeavesGlkAndMemory, glk_call};
ghost use Rattle.glk_dispatch.specs.Events as rows;
ghost use Rattle.glk_dispatch.specs.Reference.{referred_all};
ghost use Rattle.glk_dispatch.specs.Selector as selector;

use crate::arguments::MAX_ARGUMENTS;
use crate::called::Called;
use crate::fault::{BAD_ARGUMENT, BAD_OBJECT};
use crate::glk::Glk;
use crate::output::{echo_put, read_code, width};
use crate::reference::refer_all;
use glk_input::{Event, LineRequest, Request};
use std::alloc::Global;
use vm_memory::{Memory, Trap};
use vm_stack::Stack;

/// A call of events and requests.
#[derive(Clone, Copy, Debug, PartialEq, Eq)]
pub enum EventCall {
    Select,
    SelectPoll,
    RequestLine { unicode: bool },
    CancelLine,
    RequestChar { unicode: bool },
    CancelChar,
    SetEcho,
    SetTerminators,
}

/// The style of what the player gives.
pub(crate) const INPUT: u32 = 8;

/// The most characters with which a line may begin.
const MAX_INITIAL: u32 = 1024;

/// The most terminators of a line.
const MAX_KEYS: u32 = 13;

pub(crate) const NEWLINE: u32 = 10;

/// The types of windows that ask for input.
const BUFFER: u32 = 3;

const GRID: u32 = 4;

#[tactic(auto, unfolding(crate::specs::Selector::event_calls))]
pub(crate) fn event_call(number: u32) -> Option<(EventCall, u32)>
    ensures { result ≡ selector.at_number selector.event_calls number }
{
    Some(match number {
        0xC0 => (EventCall::Select, 1),
        0xC1 => (EventCall::SelectPoll, 1),
        0xD0 => (EventCall::RequestLine { unicode: false }, 4),
        0x141 => (EventCall::RequestLine { unicode: true }, 4),
        0xD1 => (EventCall::CancelLine, 2),
        0xD2 => (EventCall::RequestChar { unicode: false }, 1),
        0x140 => (EventCall::RequestChar { unicode: true }, 1),
        0xD3 => (EventCall::CancelChar, 1),
        0x150 => (EventCall::SetEcho, 2),
        0x151 => (EventCall::SetTerminators, 3),
        _ => return None,
    })
}

// Whether the window asks for input: a buffer or a grid.
pub(crate) fn may_ask(glk: &Glk, win: u32) -> bool
    ensures { result ≡ rows.may_ask glk.now win }
{
    glk.windows.kind(win) == BUFFER || glk.windows.kind(win) == GRID
}

fn request_line(
    alloc: Global,
    glk: &mut Glk,
    win: u32,
    buf: u32,
    max: u32,
    init: u32,
    unicode: bool,
) -> Result<Called, Trap>
    ensures { AnswersOverGlk (rows.line_requested unicode glk.old win buf max init) glk.new result }
{
    if !glk.is_window(win) {
        return Err(BAD_OBJECT);
    }
    if !may_ask(glk, win) || init > max || init > MAX_INITIAL {
        return Err(BAD_ARGUMENT);
    }
    match glk.requests.ask_line(alloc, win, buf, max, init, unicode) {
        Ok(()) => Ok(Called::Value(0)),
        Err(_) => Err(Trap::NoMemory),
    }
}

fn request_char(alloc: Global, glk: &mut Glk, win: u32, unicode: bool) -> Result<Called, Trap>
    ensures { AnswersOverGlk (rows.char_requested unicode glk.old win) glk.new result }
{
    if !glk.is_window(win) {
        return Err(BAD_OBJECT);
    }
    if !may_ask(glk, win) {
        return Err(BAD_ARGUMENT);
    }
    match glk.requests.ask_char(alloc, win, unicode) {
        Ok(()) => Ok(Called::Value(0)),
        Err(_) => Err(Trap::NoMemory),
    }
}

fn cancel_char(glk: &mut Glk, win: u32) -> Result<Called, Trap>
    ensures { AnswersOverGlk (rows.char_cancelled glk.old win) glk.new result }
{
    if !glk.is_window(win) {
        return Err(BAD_OBJECT);
    }
    glk.requests.cancel_char(win);
    Ok(Called::Value(0))
}

fn set_line_echo(glk: &mut Glk, win: u32, val: u32) -> Result<Called, Trap>
    ensures { AnswersOverGlk (rows.line_echo_set glk.old win val) glk.new result }
{
    if !glk.is_window(win) {
        return Err(BAD_OBJECT);
    }
    glk.requests.set_echo(win, val);
    Ok(Called::Value(0))
}

// So many words of an array.
fn words_at(alloc: Global, memory: &Memory, from: u32, count: u32) -> Result<Vec<u32>, Trap>
    ensures value { Lists (rows.array_words count memory.now from []) result }
    ensures within { IfOk result (λ words. length words.items ≡ count) }
{
    let mut words = Vec::new(alloc);
    let mut at = from;
    let mut left = count;
    while left > 0 {
        let word = memory.read4(at)?;
        if words.push(word).is_err() {
            return Err(Trap::NoMemory);
        }
        at = at.wrapping_add(4);
        left -= 1;
    }
    Ok(words)
}

fn set_terminators(
    alloc: Global,
    glk: &mut Glk,
    memory: &Memory,
    win: u32,
    keys: u32,
    count: u32,
) -> Result<Called, Trap>
    ensures { AnswersOverGlk (rows.terminators_set glk.old memory.now win keys count)
        glk.new result }
{
    if !glk.is_window(win) {
        return Err(BAD_OBJECT);
    }
    if count > MAX_KEYS {
        return Err(BAD_ARGUMENT);
    }
    let words = words_at(alloc, memory, keys, count)?;
    match glk.requests.set_terminators(alloc, win, &words) {
        Ok(()) => Ok(Called::Value(0)),
        Err(_) => Err(Trap::NoMemory),
    }
}

fn echo_item(
    alloc: Global,
    glk: &mut Glk,
    memory: &mut Memory,
    stream: u32,
    unicode: bool,
    at: u32,
) -> Result<(), Trap>
    ensures { LeavesGlkAndMemory (rows.echo_item unicode glk.old memory.old stream at)
        glk.new memory.new result }
{
    let code = read_code(memory, unicode, at)?;
    echo_put(alloc, glk, memory, stream, INPUT, code)
}

// The same of so many characters of an array.
fn echo_array(
    alloc: Global,
    glk: &mut Glk,
    memory: &mut Memory,
    stream: u32,
    unicode: bool,
    from: u32,
    count: u32,
) -> Result<(), Trap>
    ensures { LeavesGlkAndMemory (rows.echo_array count unicode glk.old memory.old stream from)
        glk.new memory.new result }
{
    let mut at = from;
    let mut left = count;
    while left > 0 {
        echo_item(alloc, glk, memory, stream, unicode, at)?;
        at = at.wrapping_add(width(unicode));
        left -= 1;
    }
    Ok(())
}

// A window shows the characters with which a line began, and a newline, unless the request has no
// echo.
fn echo_begun(
    alloc: Global,
    glk: &mut Glk,
    memory: &mut Memory,
    win: u32,
    line: &LineRequest,
) -> Result<(), Trap>
    ensures { LeavesGlkAndMemory (rows.line_begun line.now glk.old memory.old win)
        glk.new memory.new result }
{
    if line.echo {
        let stream = glk.windows.stream(win);
        echo_array(
            alloc,
            glk,
            memory,
            stream,
            line.unicode,
            line.buf,
            line.init,
        )?;
        echo_put(alloc, glk, memory, stream, INPUT, NEWLINE)?;
    }
    Ok(())
}

// The same of a line that is cancelled.
fn echo_initial(
    alloc: Global,
    glk: &mut Glk,
    memory: &mut Memory,
    win: u32,
    asked: &Option<Request>,
) -> Result<(), Trap>
    ensures { LeavesGlkAndMemory (rows.initial_echoed asked.now glk.old memory.old win)
        glk.new memory.new result }
{
    match asked {
        Some(Request::Line(line)) => echo_begun(alloc, glk, memory, win, line),
        Some(Request::Char { .. }) | None => Ok(()),
    }
}

/// The words of an event at a reference.
pub(crate) fn tell_event(
    memory: &mut Memory,
    stack: &mut Stack,
    at: u32,
    event: Event,
) -> Result<(), Trap>
    ensures { LeavesMemoryAndStack (referred_all memory.old stack.old at (rows.event_words event))
        memory.new stack.new result }
{
    refer_all(
        memory,
        stack,
        at,
        &[event.kind, event.win, event.val1, event.val2],
    )
}

fn cancel_line(
    alloc: Global,
    glk: &mut Glk,
    memory: &mut Memory,
    stack: &mut Stack,
    win: u32,
    event_at: u32,
) -> Result<Called, Trap>
    ensures { DoesCall (rows.cancels_line (glk_call glk.old memory.old stack.old) win event_at)
        glk.new memory.new stack.new result }
{
    if !glk.is_window(win) {
        return Err(BAD_OBJECT);
    }
    let asked = glk.requests.request(win);
    let event = glk.requests.cancel_line(win);
    echo_initial(alloc, glk, memory, win, &asked)?;
    tell_event(memory, stack, event_at, event)?;
    Ok(Called::Value(0))
}

#[tactic(auto, unfolding(crate::specs::Events::event_work))]
pub(crate) fn do_event(
    alloc: Global,
    glk: &mut Glk,
    memory: &mut Memory,
    stack: &mut Stack,
    call: EventCall,
    args: &[u32; MAX_ARGUMENTS],
) -> Result<Called, Trap>
    ensures { DoesCall (rows.event_work call (glk_call glk.old memory.old stack.old)
        (slice_index args.now)) glk.new memory.new stack.new result }
{
    let win = args[0];
    match call {
        EventCall::Select => {
            glk.event = args[0];
            Ok(Called::Wait)
        }
        EventCall::SelectPoll => {
            refer_all(memory, stack, args[0], &[0, 0, 0, 0])?;
            Ok(Called::Value(0))
        }
        EventCall::RequestLine { unicode } => Ok(request_line(
            alloc, glk, win, args[1], args[2], args[3], unicode,
        )?),
        EventCall::CancelLine => cancel_line(alloc, glk, memory, stack, win, args[1]),
        EventCall::RequestChar { unicode } => Ok(request_char(alloc, glk, win, unicode)?),
        EventCall::CancelChar => Ok(cancel_char(glk, win)?),
        EventCall::SetEcho => Ok(set_line_echo(glk, win, args[1])?),
        EventCall::SetTerminators => {
            Ok(set_terminators(alloc, glk, memory, win, args[1], args[2])?)
        }
    }
}
