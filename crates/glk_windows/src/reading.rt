//! What a story reads of a window (Glk 0.7.5, "Window Opening, Closing, and Constraints").

ghost use Rattle.std.specs.Prelude.{◌≡◌, ◌<◌, length};
ghost use Rattle.glk_windows.specs.Reading as reading;
ghost use Rattle.glk_windows.specs.Tree as tree;

use crate::changing::window_at;
use crate::text::Run;
use crate::window::{Content, Pair, Window};
use crate::windows::Windows;

impl Windows {
    /// The window's type: 1 pair, 2 blank, 3 buffer, 4 grid; 0 where it isn't live.
    pub fn kind(&self, win: u32) -> u32
        ensures { result ≡ reading.window_kind self.now.slots win }
    {
        match window_at(&self.slots, win) {
            None => 0,
            Some(window) => kind_in(&window.content),
        }
    }

    /// The rock that the window was opened with.
    pub fn rock(&self, win: u32) -> u32
        ensures { result ≡ reading.rock_of self.now.slots win }
    {
        match window_at(&self.slots, win) {
            None => 0,
            Some(window) => window.rock,
        }
    }

    /// The width and height of a buffer or grid in characters, else 0 and 0.
    pub fn size(&self, win: u32) -> (u32, u32)
        ensures { result ≡ reading.size_of self.now.slots win }
    {
        match window_at(&self.slots, win) {
            None => (0, 0),
            Some(window) => size_in(window),
        }
    }

    /// The number of the window's stream, or 0.
    pub fn stream(&self, win: u32) -> u32
        ensures { result ≡ tree.stream_of self.now.slots win }
    {
        stream_at(&self.slots, win)
    }

    /// The number of the stream to which the window's output goes too, or 0.
    pub fn echo(&self, win: u32) -> u32
        ensures { result ≡ reading.echo_of self.now.slots win }
    {
        match window_at(&self.slots, win) {
            None => 0,
            Some(window) => window.echo,
        }
    }

    /// The pair above the window, or 0.
    pub fn parent(&self, win: u32) -> u32
        ensures { result ≡ tree.parent_of self.now.slots win }
    {
        parent_at(&self.slots, win)
    }

    /// The other window of the pair above, or 0.
    pub fn sibling(&self, win: u32) -> u32
        ensures { result ≡ reading.sibling_of self.now.slots win }
    {
        match pair_at(&self.slots, self.parent(win)) {
            None => 0,
            Some(pair) => other(pair, win),
        }
    }

    /// The method of a pair as it was set, its size and its key; 0 for what is no pair.
    pub fn arrangement(&self, win: u32) -> (u32, u32, u32)
        ensures { result ≡ reading.arrangement_of self.now.slots win }
    {
        match pair_at(&self.slots, win) {
            None => (0, 0, 0),
            Some(pair) => (pair.method, pair.size, pair.key),
        }
    }

    /// The two windows of a pair; 0 for what is no pair.
    pub fn children(&self, win: u32) -> (u32, u32)
        ensures { result ≡ reading.children_of self.now.slots win }
    {
        match pair_at(&self.slots, win) {
            None => (0, 0),
            Some(pair) => (pair.first, pair.second),
        }
    }

    /// What a buffer printed since the last clearing of this turn, in runs of one style.
    pub fn runs(&self, win: u32) -> &[Run]
        ensures { result.now ≡ reading.runs_of self.now.slots win }
    {
        match window_at(&self.slots, win) {
            None => &[],
            Some(window) => runs_in(&window.content),
        }
    }

    /// Whether a buffer was cleared in this turn.
    pub fn cleared(&self, win: u32) -> bool
        ensures { result ≡ reading.cleared_of self.now.slots win }
    {
        match window_at(&self.slots, win) {
            None => false,
            Some(window) => cleared_in(&window.content),
        }
    }

    /// The cells of a grid, one row after the other.
    pub fn cells(&self, win: u32) -> &[u32]
        ensures { result.now ≡ reading.cells_of self.now.slots win }
    {
        match window_at(&self.slots, win) {
            None => &[],
            Some(window) => cells_in(&window.content),
        }
    }

    /// The cursor of a grid: its column and its row.
    pub fn cursor(&self, win: u32) -> (u32, u32)
        ensures { result ≡ reading.cursor_of self.now.slots win }
    {
        match window_at(&self.slots, win) {
            None => (0, 0),
            Some(window) => cursor_in(&window.content),
        }
    }
}

fn kind_in(content: &Content) -> u32
    ensures { result ≡ reading.kind_in content.now }
{
    match content {
        Content::Pair(_) => 1,
        Content::Blank => 2,
        Content::Buffer(_) => 3,
        Content::Grid(_) => 4,
    }
}

fn size_in(window: &Window) -> (u32, u32)
    ensures { result ≡ reading.size_in window.now.content window.now.area }
{
    match &window.content {
        Content::Pair(_) | Content::Blank => (0, 0),
        Content::Buffer(_) | Content::Grid(_) => (window.area.w, window.area.h),
    }
}

fn runs_in(content: &Content) -> &[Run]
    ensures { result.now ≡ reading.runs_in content.now }
{
    match content {
        Content::Buffer(buffer) => buffer.runs.as_slice(),
        _ => &[],
    }
}

fn cleared_in(content: &Content) -> bool
    ensures { result ≡ reading.cleared_in content.now }
{
    match content {
        Content::Buffer(buffer) => buffer.cleared,
        _ => false,
    }
}

fn cells_in(content: &Content) -> &[u32]
    ensures { result.now ≡ reading.cells_in content.now }
{
    match content {
        Content::Grid(grid) => grid.cells.as_slice(),
        _ => &[],
    }
}

fn cursor_in(content: &Content) -> (u32, u32)
    ensures { result ≡ reading.cursor_in content.now }
{
    match content {
        Content::Grid(grid) => (grid.x, grid.y),
        _ => (0, 0),
    }
}

// The number of the window's stream, or 0.
pub(crate) fn stream_at(slots: &[Window], win: u32) -> u32
    ensures { result ≡ tree.stream_of slots.now win }
{
    match window_at(slots, win) {
        None => 0,
        Some(window) => window.stream,
    }
}

// The pair above the window, or 0.
pub(crate) fn parent_at(slots: &[Window], win: u32) -> u32
    ensures { result ≡ tree.parent_of slots.now win }
{
    match window_at(slots, win) {
        None => 0,
        Some(window) => window.parent,
    }
}

// What the pair with this number holds.
pub(crate) fn pair_at(slots: &[Window], win: u32) -> Option<Pair>
    ensures { result ≡ tree.pair_of slots.now win }
{
    match window_at(slots, win) {
        None => None,
        Some(window) => pair_in(&window.content),
    }
}

pub(crate) fn pair_in(content: &Content) -> Option<Pair>
    ensures { result ≡ tree.pair_content content.now }
{
    match content {
        Content::Pair(pair) => Some(*pair),
        _ => None,
    }
}

/// The other window of a pair.
pub(crate) fn other(pair: Pair, win: u32) -> u32
    ensures { result ≡ reading.other_window pair win }
{
    if pair.first == win {
        pair.second
    } else {
        pair.first
    }
}
