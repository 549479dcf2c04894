//! The calls of windows (Glk 0.7.5, "Windows").

ghost use Rattle.std.specs.Prelude.{◌≡◌, ◌≤◌, ◌<◌, length, slice_index, not};
ghost use Rattle.glk_dispatch.specs.Answer.{AnswersOverGlk, DoesCall, MakesAnswer, glk_call};
ghost use Rattle.glk_dispatch.specs.Selector as selector;
ghost use Rattle.glk_dispatch.specs.Windows as rows;

use crate::arguments::MAX_ARGUMENTS;
use crate::called::Called;
use crate::fault::{BAD_ARGUMENT, BAD_OBJECT, of_streams};
use crate::glk::Glk;
use crate::opening::{close_all, open};
use crate::reference::{refer, refer_all};
use glk_windows::is_method;
use std::alloc::Global;
use vm_memory::{Memory, Trap};
use vm_stack::Stack;

/// A call of windows.
#[derive(Clone, Copy, Debug, PartialEq, Eq)]
pub enum WindowCall {
    Iterate,
    GetRock,
    GetRoot,
    Open,
    Close,
    GetSize,
    SetArrangement,
    GetArrangement,
    GetType,
    GetParent,
    GetSibling,
    Clear,
    MoveCursor,
    GetStream,
    SetEchoStream,
    GetEchoStream,
    SetWindow,
}

/// The type of pair windows.
const PAIR: u32 = 1;

/// The type of text grid windows.
const GRID: u32 = 4;

#[tactic(auto, unfolding(crate::specs::Selector::window_calls))]
pub(crate) fn window_call(number: u32) -> Option<(WindowCall, u32)>
    ensures { result ≡ selector.at_number selector.window_calls number }
{
    Some(match number {
        0x20 => (WindowCall::Iterate, 2),
        0x21 => (WindowCall::GetRock, 1),
        0x22 => (WindowCall::GetRoot, 0),
        0x23 => (WindowCall::Open, 5),
        0x24 => (WindowCall::Close, 2),
        0x25 => (WindowCall::GetSize, 3),
        0x26 => (WindowCall::SetArrangement, 4),
        0x27 => (WindowCall::GetArrangement, 4),
        0x28 => (WindowCall::GetType, 1),
        0x29 => (WindowCall::GetParent, 1),
        0x2A => (WindowCall::Clear, 1),
        0x2B => (WindowCall::MoveCursor, 3),
        0x2C => (WindowCall::GetStream, 1),
        0x2D => (WindowCall::SetEchoStream, 2),
        0x2E => (WindowCall::GetEchoStream, 1),
        0x2F => (WindowCall::SetWindow, 1),
        0x30 => (WindowCall::GetSibling, 1),
        _ => return None,
    })
}

// Whether the output of this stream goes to the window too.
#[tactic(auto, unfolding(crate::specs::Windows::reaches))]
fn reaches(glk: &Glk, steps: usize, stream: u32, win: u32) -> bool
    ensures { result ≡ rows.reaches steps glk.now stream win }
{
    if steps == 0 {
        return false;
    }
    let shown = glk.streams.window_of(stream);
    if shown == 0 {
        return false;
    }
    shown == win || reaches(glk, steps - 1, glk.windows.echo(shown), win)
}

fn iterate(
    glk: &mut Glk,
    memory: &mut Memory,
    stack: &mut Stack,
    win: u32,
    rock: u32,
) -> Result<Called, Trap>
    ensures { DoesCall (rows.iterates_windows (glk_call glk.old memory.old stack.old) win rock)
        glk.new memory.new stack.new result }
{
    if !glk.is_window_or_none(win) {
        return Err(BAD_OBJECT);
    }
    let next = glk.windows.window_after(win);
    refer(memory, stack, rock, glk.windows.rock(next))?;
    Ok(Called::Value(next))
}

fn close(
    alloc: Global,
    glk: &mut Glk,
    memory: &mut Memory,
    stack: &mut Stack,
    win: u32,
    result_at: u32,
) -> Result<Called, Trap>
    ensures { DoesCall (rows.closes_window (glk_call glk.old memory.old stack.old) win result_at)
        glk.new memory.new stack.new result }
{
    if !glk.is_window(win) {
        return Err(BAD_OBJECT);
    }
    let written = glk.written_to(glk.windows.stream(win));
    close_all(alloc, glk, win)?;
    refer_all(memory, stack, result_at, &[0, written])?;
    Ok(Called::Value(0))
}

fn tell_size(
    glk: &mut Glk,
    memory: &mut Memory,
    stack: &mut Stack,
    win: u32,
    width: u32,
    height: u32,
) -> Result<Called, Trap>
    ensures { DoesCall (rows.sizes (glk_call glk.old memory.old stack.old) win width height)
        glk.new memory.new stack.new result }
{
    if !glk.is_window(win) {
        return Err(BAD_OBJECT);
    }
    let size = glk.windows.size(win);
    refer(memory, stack, width, size.0)?;
    refer(memory, stack, height, size.1)?;
    Ok(Called::Value(0))
}

fn arrange(
    alloc: Global,
    glk: &mut Glk,
    win: u32,
    method: u32,
    size: u32,
    key: u32,
) -> Result<Called, Trap>
    ensures { AnswersOverGlk (rows.window_arranged glk.old win method size key) glk.new result }
{
    if !glk.is_window(win) {
        return Err(BAD_OBJECT);
    }
    if glk.windows.kind(win) != PAIR
        || !is_method(method)
        || !glk.windows.is_same_axis(win, method)
    {
        return Err(BAD_ARGUMENT);
    }
    if !glk.is_window_or_none(key) {
        return Err(BAD_OBJECT);
    }
    if !glk.windows.may_key(win, key) {
        return Err(BAD_ARGUMENT);
    }
    glk.windows.arrange(win, method, size, key);
    glk.place(alloc)?;
    Ok(Called::Value(0))
}

fn tell_arrangement(
    glk: &mut Glk,
    memory: &mut Memory,
    stack: &mut Stack,
    win: u32,
    method: u32,
    size: u32,
    key: u32,
) -> Result<Called, Trap>
    ensures { DoesCall
        (rows.tells_arrangement (glk_call glk.old memory.old stack.old) win method size key)
        glk.new memory.new stack.new result }
{
    if !glk.is_window(win) {
        return Err(BAD_OBJECT);
    }
    if glk.windows.kind(win) != PAIR {
        return Err(BAD_ARGUMENT);
    }
    let held = glk.windows.arrangement(win);
    refer(memory, stack, method, held.0)?;
    refer(memory, stack, size, held.1)?;
    refer(memory, stack, key, held.2)?;
    Ok(Called::Value(0))
}

fn move_cursor(glk: &mut Glk, win: u32, x: u32, y: u32) -> Result<Called, Trap>
    ensures { AnswersOverGlk (rows.cursor_moved glk.old win x y) glk.new result }
{
    if !glk.is_window(win) {
        return Err(BAD_OBJECT);
    }
    if glk.windows.kind(win) != GRID {
        return Err(BAD_ARGUMENT);
    }
    glk.windows.move_to(win, x, y);
    Ok(Called::Value(0))
}

fn set_echo(glk: &mut Glk, win: u32, stream: u32) -> Result<Called, Trap>
    ensures { AnswersOverGlk (rows.echo_stream_set glk.old win stream) glk.new result }
{
    if !glk.is_window(win) || !glk.is_stream_or_none(stream) {
        return Err(BAD_OBJECT);
    }
    if reaches(glk, glk.windows.slots().len(), stream, win) {
        return Err(BAD_ARGUMENT);
    }
    glk.windows.set_echo(win, stream);
    Ok(Called::Value(0))
}

fn set_window(glk: &mut Glk, win: u32) -> Result<Called, Trap>
    ensures { AnswersOverGlk (rows.window_set glk.old win) glk.new result }
{
    if !glk.is_window_or_none(win) {
        return Err(BAD_OBJECT);
    }
    match glk.streams.set_current(glk.windows.stream(win)) {
        Ok(()) => Ok(Called::Value(0)),
        Err(stop) => Err(of_streams(stop)),
    }
}

fn clear(glk: &mut Glk, win: u32) -> Result<Called, Trap>
    ensures { AnswersOverGlk (rows.cleared glk.old win) glk.new result }
{
    if !glk.is_window(win) {
        return Err(BAD_OBJECT);
    }
    glk.windows.clear(win);
    Ok(Called::Value(0))
}

#[tactic(auto, unfolding(crate::specs::Windows::window_work))]
pub(crate) fn do_window(
    alloc: Global,
    glk: &mut Glk,
    memory: &mut Memory,
    stack: &mut Stack,
    call: WindowCall,
    args: &[u32; MAX_ARGUMENTS],
) -> Result<Called, Trap>
    ensures { DoesCall (rows.window_work call (glk_call glk.old memory.old stack.old)
        (slice_index args.now)) glk.new memory.new stack.new result }
{
    let win = args[0];
    match call {
        WindowCall::Iterate => iterate(glk, memory, stack, win, args[1]),
        WindowCall::GetRoot => Ok(Called::Value(glk.windows.root())),
        WindowCall::Open => Ok(Called::Value(open(
            alloc, glk, win, args[1], args[2], args[3], args[4],
        )?)),
        WindowCall::Close => close(alloc, glk, memory, stack, win, args[1]),
        WindowCall::GetSize => tell_size(glk, memory, stack, win, args[1], args[2]),
        WindowCall::SetArrangement => Ok(arrange(alloc, glk, win, args[1], args[2], args[3])?),
        WindowCall::GetArrangement => {
            tell_arrangement(glk, memory, stack, win, args[1], args[2], args[3])
        }
        WindowCall::Clear => Ok(clear(glk, win)?),
        WindowCall::MoveCursor => Ok(move_cursor(glk, win, args[1], args[2])?),
        WindowCall::SetEchoStream => Ok(set_echo(glk, win, args[1])?),
        WindowCall::SetWindow => Ok(set_window(glk, win)?),
        WindowCall::GetRock => Ok(Called::Value(live(glk, win, glk.windows.rock(win))?)),
        WindowCall::GetType => Ok(Called::Value(live(glk, win, glk.windows.kind(win))?)),
        WindowCall::GetParent => Ok(Called::Value(live(glk, win, glk.windows.parent(win))?)),
        WindowCall::GetSibling => Ok(Called::Value(live(glk, win, glk.windows.sibling(win))?)),
        WindowCall::GetStream => Ok(Called::Value(live(glk, win, glk.windows.stream(win))?)),
        WindowCall::GetEchoStream => Ok(Called::Value(live(glk, win, glk.windows.echo(win))?)),
    }
}

// What is told of a window that is live.
fn live(glk: &Glk, win: u32, told: u32) -> Result<u32, Trap>
    ensures { MakesAnswer (rows.told_of_window glk.now win told) result }
{
    if glk.is_window(win) {
        Ok(told)
    } else {
        Err(BAD_OBJECT)
    }
}
