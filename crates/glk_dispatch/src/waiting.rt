//! Inputs that a call waits for (Glk 0.7.5, "Events", "Line Input Events", "Window Arrangement
//! Events").

ghost use Rattle.std.specs.Prelude.{◌≡◌, OnOk, true};
ghost use Rattle.glk_input.specs.Delivery as delivery;
ghost use Rattle.glk_input.specs.Request as request;
ghost use Rattle.glk_dispatch.specs.Answer.{ChangesGlk, DoesCall, Done, Gets, LeavesGlkAndMemory};
ghost use Rattle.glk_dispatch.specs.Answer.{UnlessNoMemory, glk_call};
ghost use Rattle.glk_dispatch.specs.Events as rows;
ghost use Rattle.glk_dispatch.specs.Keeping.{KeepsStory};
ghost use Rattle.glk_dispatch.specs.Valid.{IsReadyGlk, IsValidGlk};

use crate::events::{INPUT, NEWLINE, tell_event};
use crate::filerefs::answer_prompt;
use crate::glk::Glk;
use crate::output::echo_put;
use glk_input::{Event, LineRequest, Request};
use std::alloc::Global;
use story_text::{Input, Text};
use vm_memory::{Memory, Trap};
use vm_stack::Stack;

// A window shows characters in the style of input.
fn echo_codes(
    alloc: Global,
    glk: &mut Glk,
    memory: &mut Memory,
    stream: u32,
    codes: &[u32],
) -> Result<(), Trap>
    ensures { LeavesGlkAndMemory (rows.echoed glk.old memory.old stream codes.now)
        glk.new memory.new result }
{
    for code in codes {
        echo_put(alloc, glk, memory, stream, INPUT, *code)?;
    }
    Ok(())
}

// A line that comes: the window shows it and a newline, unless the request has no echo.
fn echo_line(
    alloc: Global,
    glk: &mut Glk,
    memory: &mut Memory,
    win: u32,
    line: &LineRequest,
    text: &Text,
) -> Result<(), Trap>
    ensures { LeavesGlkAndMemory (rows.line_shown line.now glk.old memory.old win text.now)
        glk.new memory.new result }
{
    if line.echo {
        let Ok(codes) = line.taken(alloc, text) else {
            return Err(Trap::NoMemory);
        };
        let stream = glk.windows.stream(win);
        echo_codes(alloc, glk, memory, stream, codes.as_slice())?;
        echo_put(alloc, glk, memory, stream, INPUT, NEWLINE)?;
    }
    Ok(())
}

fn echo_text(
    alloc: Global,
    glk: &mut Glk,
    memory: &mut Memory,
    win: u32,
    text: &Text,
) -> Result<(), Trap>
    ensures { LeavesGlkAndMemory (rows.line_echoed (request.window_request glk.old.requests win)
        glk.old memory.old
        win text.now) glk.new memory.new result }
{
    match glk.requests.request(win) {
        Some(Request::Line(line)) => echo_line(alloc, glk, memory, win, &line, text),
        Some(Request::Char { .. }) | None => Ok(()),
    }
}

// The screen has the size that an input tells.
fn take_screen(alloc: Global, glk: &mut Glk, input: &Input) -> Result<(), Trap>
    ensures { ChangesGlk (Done (rows.screen_after glk.old input.now)) glk.new result }
{
    match input {
        Input::Size { cols, rows } => glk.resize(alloc, *cols, *rows),
        Input::Line { .. } | Input::Char { .. } | Input::File { .. } => Ok(()),
    }
}

fn echo_input(alloc: Global, glk: &mut Glk, memory: &mut Memory, input: &Input) -> Result<(), Trap>
    ensures { LeavesGlkAndMemory (rows.input_echoed glk.old memory.old input.now)
        glk.new memory.new result }
{
    match input {
        Input::Line { win, text, .. } => echo_text(alloc, glk, memory, *win, text),
        Input::Char { .. } | Input::File { .. } | Input::Size { .. } => Ok(()),
    }
}

fn deliver(glk: &mut Glk, memory: &mut Memory, input: &Input) -> Result<Event, Trap>
    requires { delivery.wants glk.old.requests input.now ≡ true }
    ensures { Gets (rows.input_delivered glk.old memory.old input.now) glk.new memory.new result }
{
    Ok(glk.requests.deliver(memory, input)?)
}

fn answer_event(
    alloc: Global,
    glk: &mut Glk,
    memory: &mut Memory,
    stack: &mut Stack,
    input: &Input,
) -> Result<u32, Trap>
    requires { delivery.wants glk.old.requests input.now ≡ true }
    ensures { DoesCall (rows.event_answered (glk_call glk.old memory.old stack.old) input.now)
        glk.new memory.new stack.new result }
{
    let told_at = glk.event;
    glk.rest();
    take_screen(alloc, glk, input)?;
    echo_input(alloc, glk, memory, input)?;
    let event = deliver(glk, memory, input)?;
    tell_event(memory, stack, told_at, event)?;
    Ok(0)
}

/// Gives an input to the call that waits for it, and answers what that call answers: 0 for
/// `glk_select`, whose reference takes the event of what a window asks for or of a new size of the
/// screen; for a prompt, which takes a file's name, the new file reference, or 0. What the call
/// waited with is set back, after a fault too.
pub fn answer(
    alloc: Global,
    glk: &mut Glk,
    memory: &mut Memory,
    stack: &mut Stack,
    input: &Input,
) -> Result<u32, Trap>
    requires { rows.is_awaited glk.old.requests input.now ≡ true }
    ensures does { DoesCall (rows.input_answered (glk_call glk.old memory.old stack.old) input.now)
        glk.new memory.new stack.new result }
    ensures kept { OnOk result (KeepsStory memory.old stack.old memory.new stack.new) }
    ensures valid { UnlessNoMemory result (IsValidGlk glk.old → IsReadyGlk glk.new) }
{
    match input {
        Input::Line { .. } | Input::Char { .. } | Input::Size { .. } => {
            answer_event(alloc, glk, memory, stack, input)
        }
        Input::File { name } => Ok(answer_prompt(alloc, glk, name)?),
    }
}
