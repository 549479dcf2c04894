//! The windows of a story as a list by number (Glk 0.7.5, "The Window Tree").

ghost use Rattle.std.specs.Prelude.{◌≡◌, [], IfOk};
ghost use Rattle.glk_windows.specs.Arranging as arranging;
ghost use Rattle.glk_windows.specs.Tree.{IsLive, window_number};
ghost use Rattle.glk_numbers.specs.Numbered.{number_above, has};

use crate::changing::{Change, change_at};
use crate::window::Window;
use glk_numbers::{Numbered, is_live, next_above};
use std::alloc::Global;
use std::marker::Model;

impl Numbered for Window {
    ghost number_of = { λ w. w.number };

    fn number(&self) -> u32 {
        self.number
    }
}

/// The windows by ascending number, the number of the next one, and the root of their tree.
#[derive(Drop)]
pub struct Windows {
    pub(crate) slots: Vec<Window>,
    pub(crate) next: u32,
    pub(crate) root: u32,
}

impl Model for Windows {
    ghost use Rattle.glk_windows.specs.Tree.{WindowTree};

    ghost Value = { WindowTree };

    ghost view = { λ w. record { slots = w.slots.items; next = w.next; root = w.root } };
}

impl Windows {
    /// No window.
    pub fn new(alloc: Global) -> Windows
        ensures { result ≡ record { slots = []; next = 1; root = 0 } }
    {
        Windows {
            slots: Vec::new(alloc),
            next: 1,
            root: 0,
        }
    }

    /// Whether a window has this number.
    pub fn is_live(&self, win: u32) -> bool
        ensures { result ≡ has window_number self.now.slots win }
    {
        is_live(&self.slots, win)
    }

    /// The next live window above the number, or 0.
    pub fn window_after(&self, number: u32) -> u32
        ensures { result ≡ number_above window_number self.now.slots number }
    {
        next_above(&self.slots, number)
    }

    /// The window at the top of the tree, or 0.
    pub fn root(&self) -> u32
        ensures { result ≡ self.now.root }
    {
        self.root
    }

    /// The number of the next window.
    pub fn next(&self) -> u32
        ensures { result ≡ self.now.next }
    {
        self.next
    }

    /// The windows by ascending number, lent.
    pub fn slots(&self) -> &[Window]
        ensures { result.now ≡ self.now.slots }
    {
        &self.slots
    }

    /// Keeps the number of a window's stream.
    pub fn set_stream(&mut self, win: u32, stream: u32)
        ensures { self.new ≡ arranging.stream_set self.old win stream }
    {
        change_at(&mut self.slots, win, Change::Stream(stream))
    }

    /// Keeps the number of the stream to which a window's output goes too, 0 for none.
    pub fn set_echo(&mut self, win: u32, stream: u32)
        requires { IsLive self.old win }
        ensures { self.new ≡ arranging.echo_set self.old win stream }
    {
        change_at(&mut self.slots, win, Change::Echo(stream))
    }
}
