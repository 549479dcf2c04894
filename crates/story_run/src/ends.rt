//! The ends of a show: what a story asks for, or how it ended.

ghost use Rattle.std.specs.Prelude.{◌≡◌, ◌++◌, ◌∷◌, ◌+◌, ◌*◌, [], IfOk};
ghost use Rattle.std.specs.List.{flat_map};
ghost use Rattle.story_run.specs.Show as show;
ghost use Rattle.glk_input.specs.Delivery.{width};

use crate::stage::Stage;
use glk_dispatch::{Glk, Prompt};
use glk_input::{LineRequest, Request, WindowInput};
use glk_windows::Codes;
use std::alloc::{AllocError, Global};
use story_show::{End, Ends, show_of, write_show};
use vm_memory::Memory;

/// The lines of a turn that has come to rest.
pub(crate) fn lines_of(alloc: Global, glk: &Glk, stage: &Stage<'_>) -> Result<Vec<u8>, AllocError>
    ensures { IfOk result (λ out. out.items ≡ show.turn_show glk.now stage.now) }
{
    let ends = Ends::of(ends_of(alloc, glk, stage)?);
    let shown = show_of(alloc, &glk.windows, ends)?;
    write_show(alloc, &shown)
}

fn ends_of(alloc: Global, glk: &Glk, stage: &Stage<'_>) -> Result<Vec<End>, AllocError>
    ensures { IfOk result (λ ends. ends.items ≡ show.ends_of glk.now stage.now) }
{
    match stage {
        Stage::AtSelect(machine) => wants_of(alloc, &machine.memory, glk.requests.windows()),
        Stage::AtPrompt(_) => one(alloc, asked_by(glk.prompt())),
        Stage::Quit => one(alloc, End::Quit),
        Stage::Fault(code) => one(alloc, End::Fault(*code)),
    }
}

fn asked_by(prompt: Prompt) -> End
    ensures { result ≡ End.Prompt prompt.usage prompt.mode }
{
    End::Prompt {
        usage: prompt.usage,
        mode: prompt.mode,
    }
}

fn one(alloc: Global, end: End) -> Result<Vec<End>, AllocError>
    ensures { IfOk result (λ ends. ends.items ≡ end ∷ []) }
{
    let mut ends = Vec::new(alloc);
    ends.push(end)?;
    Ok(ends)
}

// What windows ask for.
fn wants_of(alloc: Global, memory: &Memory, windows: &[WindowInput]) -> Result<Vec<End>, AllocError>
    ensures { IfOk result (λ ends.
        ends.items ≡ flat_map (show.window_wants memory.now) windows.now) }
{
    let mut ends = Vec::new(alloc);
    for window in windows {
        push_want(alloc, &mut ends, memory, window)?;
    }
    Ok(ends)
}

#[tactic(auto, unfolding(crate::specs::Show::window_wants))]
fn push_want(
    alloc: Global,
    ends: &mut Vec<End>,
    memory: &Memory,
    window: &WindowInput,
) -> Result<(), AllocError>
    ensures { IfOk result (λ _.
        ends.new.items ≡ ends.old.items ++ show.window_wants memory.now window.now) }
{
    match &window.request {
        None => Ok(()),
        Some(request) => {
            ends.push(want_of(alloc, memory, window.win, request)?)?;
            Ok(())
        }
    }
}

fn want_of(alloc: Global, memory: &Memory, id: u32, request: &Request) -> Result<End, AllocError>
    ensures { IfOk result (λ want. want ≡ show.want_of memory.now id request.now) }
{
    match request {
        Request::Line(line) => {
            Ok(End::WantLine {
                id,
                max: line.max,
                initial: initial(alloc, memory, line)?,
            })
        }
        Request::Char { .. } => Ok(End::WantChar { id }),
    }
}

fn initial(alloc: Global, memory: &Memory, line: &LineRequest) -> Result<Codes, AllocError>
    ensures { IfOk result (λ codes.
        codes ≡ show.initial line.now.init line.now.unicode memory.now line.now.buf) }
{
    Ok(Codes::of(chars_at(alloc, memory, line.unicode, line.buf, line.init)?))
}

// So many characters of an array, 0 for each that passes memory's end.
#[tactic(auto, unfolding(crate::specs::Show::initial))]
fn chars_at(
    alloc: Global,
    memory: &Memory,
    unicode: bool,
    buf: u32,
    count: u32,
) -> Result<Vec<u32>, AllocError>
    ensures { IfOk result (λ codes. codes.items ≡ show.initial count unicode memory.now buf) }
{
    let mut codes = Vec::new(alloc);
    for i in 0..count {
        codes.push(char_at(memory, unicode, place(unicode, buf, i)))?;
    }
    Ok(codes)
}

// Where a character of an array stands.
fn place(unicode: bool, buf: u32, index: u32) -> u64
    ensures { result ≡ buf + index * width unicode }
{
    if unicode {
        u64::from(buf) + u64::from(index) * 4
    } else {
        u64::from(buf) + u64::from(index)
    }
}

fn char_at(memory: &Memory, unicode: bool, at: u64) -> u32
    ensures { result ≡ show.character_in_memory unicode memory.now at }
{
    if at >= u64::from(memory.size()) {
        return 0;
    }
    let read = if unicode {
        memory.read4(at as u32)
    } else {
        memory.read1(at as u32)
    };
    match read {
        Ok(code) => code,
        Err(_) => 0,
    }
}
