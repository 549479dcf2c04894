//! One window changed, by its number.

ghost use Rattle.std.specs.Prelude.{◌≡◌, option_map};
ghost use Rattle.glk_windows.specs.Tree.{content_arranged, changed, grid_cursor_moved, set_at};
ghost use Rattle.glk_windows.specs.Tree.{swapped};
ghost use Rattle.glk_windows.specs.Tree as tree;

use crate::window::{Content, Window};
use glk_numbers::place_of;

/// A change of one window.
#[derive(Clone, Copy, Debug, PartialEq, Eq)]
pub(crate) enum Change {
    Parent(u32),
    Stream(u32),
    Echo(u32),
    /// In a pair, another window in the place of the old one.
    Child { old: u32, new: u32 },
    /// How a pair divides its rectangle; key 0 keeps the key.
    Division { method: u32, size: u32, key: u32 },
    /// Where a grid prints next.
    Cursor { x: u32, y: u32 },
}

fn apply(window: &mut Window, change: Change)
    ensures { window.new ≡ changed change window.old }
{
    match change {
        Change::Parent(parent) => window.parent = parent,
        Change::Stream(stream) => window.stream = stream,
        Change::Echo(stream) => window.echo = stream,
        Change::Child { old, new } => swap(&mut window.content, old, new),
        Change::Division { method, size, key } => divide(&mut window.content, method, size, key),
        Change::Cursor { x, y } => move_cursor(&mut window.content, x, y),
    }
}

fn swap(content: &mut Content, old: u32, new: u32)
    ensures { content.new ≡ swapped content.old old new }
{
    match content {
        Content::Pair(pair) => {
            if pair.first == old {
                pair.first = new;
            } else if pair.second == old {
                pair.second = new;
            }
        }
        _ => {}
    }
}

fn divide(content: &mut Content, method: u32, size: u32, key: u32)
    ensures { content.new ≡ content_arranged content.old method size key }
{
    match content {
        Content::Pair(pair) => {
            pair.method = method;
            pair.size = size;
            if key != 0 {
                pair.key = key;
            }
        }
        _ => {}
    }
}

fn move_cursor(content: &mut Content, x: u32, y: u32)
    ensures { content.new ≡ grid_cursor_moved content.old x y }
{
    match content {
        Content::Grid(grid) => {
            grid.x = x;
            grid.y = y;
        }
        _ => {}
    }
}

/// Changes the window with this number.
pub(crate) fn change_at(slots: &mut [Window], win: u32, what: Change)
    ensures { slots.new ≡ set_at (changed what) slots.old win }
{
    match place_of(slots, win) {
        None => {}
        Some(at) => apply(&mut slots[at], what),
    }
}

/// The window with this number.
#[tactic(auto, unfolding(glk_numbers::specs::Numbered::found))]
pub(crate) fn window_at(slots: &[Window], win: u32) -> Option<&Window>
    ensures { option_map (λ w. w.now) result ≡ tree.window_at slots.now win }
{
    for slot in slots {
        if slot.number == win {
            return Some(slot);
        }
    }
    None
}
