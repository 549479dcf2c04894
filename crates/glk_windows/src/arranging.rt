//! What a story sets of a window (Glk 0.7.5, "Changing Window Constraints").

ghost use Rattle.std.specs.Prelude.{◌≡◌, length, true};
ghost use Rattle.glk_windows.specs.Arranging as arranging;
ghost use Rattle.glk_windows.specs.Reading as reading;

use crate::changing::{Change, change_at};
use crate::reading::parent_at;
use crate::window::Window;
use crate::windows::Windows;

/// Whether a method names a side and is either fixed or proportional.
pub fn is_method(method: u32) -> bool
    ensures { result ≡ arranging.is_method method }
{
    method & 0xF <= 3 && (method & 0x30 == 0x10 || method & 0x30 == 0x20)
}

impl Windows {
    /// Sets how a pair divides its rectangle; key 0 keeps the key. The rectangles are made anew by
    /// `place`.
    pub fn arrange(&mut self, pair: u32, method: u32, size: u32, key: u32)
        requires pair { reading.window_kind self.old.slots pair ≡ 1 }
        requires method { arranging.is_method method ≡ true }
        requires key { reading.may_key self.old.slots pair key ≡ true }
        ensures { self.new ≡ arranging.arrange self.old pair method size key }
    {
        change_at(
            &mut self.slots,
            pair,
            Change::Division { method, size, key },
        )
    }

    /// Whether the window may be the key of the pair: 0 for none, or one below it that is no pair.
    pub fn may_key(&self, pair: u32, key: u32) -> bool
        ensures { result ≡ reading.may_key self.now.slots pair key }
    {
        key == 0 || is_below(&self.slots, key, pair) && self.kind(key) != 1
    }

    /// Whether the method divides as the pair does, either its width or its height.
    pub fn is_same_axis(&self, pair: u32, method: u32) -> bool
        ensures { result ≡ reading.is_same_axis self.now.slots pair method }
    {
        let (held, _, _) = self.arrangement(pair);
        held & 2 == method & 2
    }

    /// Moves the cursor of a grid to column `x` of row `y`, outside it too.
    pub fn move_to(&mut self, win: u32, x: u32, y: u32)
        requires { reading.window_kind self.old.slots win ≡ 4 }
        ensures { self.new ≡ arranging.move_to self.old win x y }
    {
        change_at(&mut self.slots, win, Change::Cursor { x, y })
    }
}

// Whether the pair stands above the window. No path is longer than the list.
fn is_below(slots: &[Window], win: u32, pair: u32) -> bool
    ensures { result ≡ reading.is_below (length slots.now) slots.now win pair }
{
    let mut at = win;
    let mut left = slots.len();
    while left > 0 {
        at = parent_at(slots, at);
        if at == pair {
            return true;
        }
        left -= 1;
    }
    false
}
