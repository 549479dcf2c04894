//! Windows that are opened (Glk 0.7.5, "Window Opening, Closing, and Constraints").

ghost use Rattle.std.specs.Prelude.{◌≡◌, ◌<◌, IfOk, OnErr};
ghost use Rattle.glk_windows.specs.Opening as opening;

use crate::changing::{Change, change_at};
use crate::reading::parent_at;
use crate::text::{Codes, Runs};
use crate::window::{Area, Buffer, Content, Grid, Pair, Window};
use crate::windows::Windows;
use glk_numbers::MAX_NUMBER;
use std::alloc::{AllocError, Global};

impl Windows {
    /// Opens a window: the first, or one beside the window `from`, under a new pair. 0 where none
    /// can be made. An error is want of memory, and changes nothing.
    pub fn split(
        &mut self,
        alloc: Global,
        from: u32,
        method: u32,
        size: u32,
        kind: u32,
        rock: u32,
    ) -> Result<u32, AllocError>
        requires { opening.MaySplit self.old from method }
        ensures ok { IfOk result (λ win.
            (self.new, win) ≡ opening.split self.old from method size kind rock) }
        ensures within { IfOk result (λ win. win < 4294967295) }
        ensures err { OnErr result (self.new ≡ self.old) }
    {
        if from == 0 {
            self.open_first(alloc, kind, rock)
        } else {
            self.open_beside(alloc, from, method, size, kind, rock)
        }
    }

    fn open_first(&mut self, alloc: Global, kind: u32, rock: u32) -> Result<u32, AllocError>
        ensures ok { IfOk result (λ win.
            (self.new, win) ≡ opening.first_opened self.old kind rock) }
        ensures within { IfOk result (λ win. win < 4294967295) }
        ensures err { OnErr result (self.new ≡ self.old) }
    {
        if self.root != 0
            || !is_kind(kind)
            || self.next > MAX_NUMBER
            || self.slots.len() + 1 > MAX_WINDOWS
        {
            return Ok(0);
        }
        let win = self.next;
        let window = made(win, rock, 0, fresh(alloc, kind));
        self.slots.push(window)?;
        self.next = win + 1;
        self.root = win;
        Ok(win)
    }

    fn open_beside(
        &mut self,
        alloc: Global,
        from: u32,
        method: u32,
        size: u32,
        kind: u32,
        rock: u32,
    ) -> Result<u32, AllocError>
        ensures ok { IfOk result (λ win.
            (self.new, win) ≡ opening.beside_opened self.old from method size kind rock) }
        ensures within { IfOk result (λ win. win < 4294967295) }
        ensures err { OnErr result (self.new ≡ self.old) }
    {
        if !is_kind(kind) || self.next >= MAX_NUMBER || self.slots.len() + 2 > MAX_WINDOWS {
            return Ok(0);
        }
        self.slots.reserve(2)?;
        let win = self.next;
        let pair = win + 1;
        let above = parent_at(&self.slots, from);
        let window = made(win, rock, pair, fresh(alloc, kind));
        let holds = Pair {
            method,
            size,
            key: win,
            first: from,
            second: win,
        };
        let joint = made(pair, 0, above, Content::Pair(holds));
        change_at(
            &mut self.slots,
            above,
            Change::Child {
                old: from,
                new: pair,
            },
        );
        change_at(&mut self.slots, from, Change::Parent(pair));
        self.slots.push_reserved(window);
        self.slots.push_reserved(joint);
        self.next = pair + 1;
        if self.root == from {
            self.root = pair;
        }
        Ok(win)
    }
}

/// The most windows of a story, pairs among them.
pub const MAX_WINDOWS: usize = 64;

fn is_kind(kind: u32) -> bool
    ensures { result ≡ opening.is_kind kind }
{
    2 <= kind && kind <= 4
}

// A window with no rectangle yet.
fn made(number: u32, rock: u32, parent: u32, content: Content) -> Window
    ensures { result ≡ opening.unplaced_window number rock parent content }
{
    let area = Area {
        x: 0,
        y: 0,
        w: 0,
        h: 0,
    };
    Window {
        number,
        rock,
        stream: 0,
        echo: 0,
        parent,
        area,
        content,
    }
}

fn fresh(alloc: Global, kind: u32) -> Content
    ensures { result ≡ opening.new_content kind }
{
    match kind {
        3 => Content::Buffer(Buffer {
            cleared: false,
            runs: Runs::new(alloc),
        }),
        4 => Content::Grid(Grid {
            w: 0,
            h: 0,
            x: 0,
            y: 0,
            cells: Codes::new(alloc),
        }),
        _ => Content::Blank,
    }
}
