//! Windows that are opened and closed, with their streams and requests (Glk 0.7.5, "Window
//! Opening, Closing, and Constraints").

ghost use Rattle.std.specs.Prelude.{◌≡◌, true};
ghost use Rattle.glk_dispatch.specs.Answer.{AnswersOverGlk, ChangesGlk, Done};
ghost use Rattle.glk_dispatch.specs.Glk as state;
ghost use Rattle.glk_dispatch.specs.Windows as rows;
ghost use Rattle.glk_windows.specs.Arranging.{is_method};
ghost use Rattle.glk_windows.specs.Tree.{IsLive};

use crate::fault::{BAD_ARGUMENT, BAD_OBJECT};
use crate::glk::Glk;
use glk_numbers::MAX_NUMBER;
use glk_windows::is_method;
use std::alloc::Global;
use vm_memory::Trap;

impl Glk {
    /// Gives all windows their rectangles.
    pub(crate) fn place(&mut self, alloc: Global) -> Result<(), Trap>
        ensures { ChangesGlk (Done (state.with_rectangles self.old)) self.new result }
    {
        match self
            .windows
            .place(alloc, u32::from(self.cols), u32::from(self.rows))
        {
            Ok(()) => Ok(()),
            Err(_) => Err(Trap::NoMemory),
        }
    }

    /// Sets the size of the screen, of which all windows get their rectangles.
    pub(crate) fn resize(&mut self, alloc: Global, cols: u8, rows: u8) -> Result<(), Trap>
        ensures { ChangesGlk (Done (state.screen_sized self.old cols rows)) self.new result }
    {
        self.cols = cols;
        self.rows = rows;
        self.place(alloc)
    }

    /// A new window takes the next stream number, and has no request.
    fn begin_window(&mut self, alloc: Global, win: u32) -> Result<(), Trap>
        ensures { ChangesGlk (Done (rows.window_begun self.old win)) self.new result }
    {
        let Ok(stream) = self.streams.open_window(alloc, win) else {
            return Err(Trap::NoMemory);
        };
        self.windows.set_stream(win, stream);
        match self.requests.begin_window(alloc, win) {
            Ok(()) => Ok(()),
            Err(_) => Err(Trap::NoMemory),
        }
    }

    fn open_first(&mut self, alloc: Global, kind: u32, rock: u32) -> Result<u32, Trap>
        ensures { AnswersOverGlk (Done (rows.first_window_opened self.old kind rock))
            self.new result }
    {
        if self.streams.next() > MAX_NUMBER {
            return Ok(0);
        }
        let Ok(win) = self.windows.split(alloc, 0, 0, 0, kind, rock) else {
            return Err(Trap::NoMemory);
        };
        if win == 0 {
            return Ok(0);
        }
        self.begin_window(alloc, win)?;
        self.place(alloc)?;
        Ok(win)
    }

    fn open_beside(
        &mut self,
        alloc: Global,
        split: u32,
        method: u32,
        size: u32,
        kind: u32,
        rock: u32,
    ) -> Result<u32, Trap>
        requires live { IsLive self.old.windows split }
        requires method { is_method method ≡ true }
        ensures { AnswersOverGlk (Done (rows.window_beside self.old split method size kind rock))
            self.new result }
    {
        if self.streams.next() >= MAX_NUMBER {
            return Ok(0);
        }
        let Ok(win) = self.windows.split(alloc, split, method, size, kind, rock) else {
            return Err(Trap::NoMemory);
        };
        if win == 0 {
            return Ok(0);
        }
        self.begin_window(alloc, win)?;
        self.begin_window(alloc, win + 1)?;
        self.place(alloc)?;
        Ok(win)
    }

    /// Ends what is kept for a window beside the tree.
    fn drop_window(&mut self, win: u32)
        ensures { self.new ≡ rows.window_dropped self.old win }
    {
        self.streams.close_window(win);
        self.requests.drop_window(win);
    }
}

// The same of a window and of all below it, to this depth.
#[tactic(auto, unfolding(crate::specs::Windows::all_dropped))]
fn drop_all(glk: &mut Glk, depth: usize, win: u32)
    ensures value { glk.new ≡ rows.all_dropped depth glk.old win }
    ensures kept { glk.new.windows ≡ glk.old.windows }
{
    if depth == 0 {
        return;
    }
    let (first, second) = glk.windows.children(win);
    glk.drop_window(win);
    if first != 0 {
        drop_all(glk, depth - 1, first);
        drop_all(glk, depth - 1, second)
    }
}

// Ends what is kept for a window, for all below it and for the pair above it.
fn drop_closed(glk: &mut Glk, win: u32)
    ensures value { glk.new ≡ rows.closed_dropped glk.old win }
    ensures kept { glk.new.windows ≡ glk.old.windows }
{
    let pair = glk.windows.parent(win);
    let depth = glk.windows.slots().len();
    drop_all(glk, depth, win);
    glk.drop_window(pair)
}

// Closes a window, all below it and the pair above it.
fn end(glk: &mut Glk, win: u32)
    requires { IsLive glk.old.windows win }
    ensures { glk.new ≡ rows.window_ended glk.old win }
{
    drop_closed(glk, win);
    glk.windows.close(win)
}

/// Closes a window and what stands and falls with it; those that stay get their rectangles.
pub(crate) fn close_all(alloc: Global, glk: &mut Glk, win: u32) -> Result<(), Trap>
    requires { IsLive glk.old.windows win }
    ensures { ChangesGlk (Done (rows.glk_without_window glk.old win)) glk.new result }
{
    end(glk, win);
    glk.place(alloc)?;
    Ok(())
}

/// The new window, or 0.
pub(crate) fn open(
    alloc: Global,
    glk: &mut Glk,
    split: u32,
    method: u32,
    size: u32,
    kind: u32,
    rock: u32,
) -> Result<u32, Trap>
    ensures { AnswersOverGlk (rows.window_opened glk.old split method size kind rock)
        glk.new result }
{
    if !glk.is_window_or_none(split) {
        return Err(BAD_OBJECT);
    }
    if split == 0 {
        return glk.open_first(alloc, kind, rock);
    }
    if !is_method(method) {
        return Err(BAD_ARGUMENT);
    }
    glk.open_beside(alloc, split, method, size, kind, rock)
}
