//! Windows that a story may have (Glk 0.7.5, "The Window Tree"; own: the limits).

ghost use Rattle.std.specs.Prelude.{◌≡◌, ◌<◌, ◌≤◌, ◌↔◌, length, IfNone, IfSome, IsTrue};
ghost use Rattle.glk_windows.specs.Fields as fields;
ghost use Rattle.glk_windows.specs.Fields.{IsRest, tree_with};
ghost use Rattle.glk_windows.specs.OneTree as one_tree;
ghost use Rattle.glk_windows.specs.OneTree.{is_tree_spelled, node_of, shape_of, tree_size};
ghost use Rattle.glk_windows.specs.Valid as valid;
ghost use Rattle.glk_windows.specs.Valid.{IsValidTree};

use crate::arranging::is_method;
use crate::changing::window_at;
use crate::opening::MAX_WINDOWS;
use crate::reading::pair_at;
use crate::window::{Area, Content, Grid, Window};
use crate::windows::Windows;
use glk_numbers::ascend;

/// Whether a grid has the size of the rectangle, and all its cells.
fn is_whole(grid: &Grid, area: Area) -> bool
    ensures { result ≡ valid.is_sound_content (Content.Grid grid.now) area }
{
    let cells = grid.cells.as_slice().len() as u64;
    grid.w == area.w && grid.h == area.h && cells == u64::from(grid.h) * u64::from(grid.w)
}

/// Whether the method of a pair is one, and a grid as large as its rectangle.
fn is_sound(window: &Window) -> bool
    ensures { result ≡ valid.is_sound_window window.now }
{
    match &window.content {
        Content::Pair(pair) => is_method(pair.method),
        Content::Blank | Content::Buffer(_) => true,
        Content::Grid(grid) => is_whole(grid, window.area),
    }
}

fn are_sound(slots: &[Window]) -> bool
    ensures { result ≡ valid.are_sound_windows slots.now }
{
    for window in slots {
        if !is_sound(window) {
            return false;
        }
    }
    true
}

/// Whether the window is there, below this one.
#[tactic(auto, using(crate::proofs::OneTreeLemmas::node_window))]
fn is_under(slots: &[Window], up: u32, win: u32) -> bool
    ensures { result ≡ one_tree.is_under up (node_of slots.now win) }
{
    match window_at(slots, win) {
        None => false,
        Some(window) => window.parent == up,
    }
}

/// How many of so many windows are left, once those from this one on are counted to a depth. None
/// where they are more, and where one isn't there below the one above it.
fn rest_of(slots: &[Window], depth: usize, up: u32, win: u32, most: usize) -> Option<usize>
    ensures { IsRest slots.now up (shape_of depth slots.now win) most result }
{
    if most == 0 || !is_under(slots, up, win) {
        return None;
    }
    match pair_at(slots, win) {
        None => Some(most - 1),
        Some(pair) => {
            if depth == 0 {
                return None;
            }
            let rest = rest_of(slots, depth - 1, win, pair.first, most - 1)?;
            rest_of(slots, depth - 1, win, pair.second, rest)
        }
    }
}

/// How often a window is reached from this one on, to a depth.
fn count_at(slots: &[Window], depth: usize, win: u32, sought: u32) -> usize
    requires { tree_size (shape_of depth slots.now win) ≤ 64 }
    ensures value { result ≡ one_tree.times_reached (shape_of depth slots.now win) sought }
    ensures within { result ≤ tree_size (shape_of depth slots.now win) }
{
    let here = usize::from(win == sought);
    if depth == 0 {
        return here;
    }
    match pair_at(slots, win) {
        None => here,
        Some(pair) => {
            here + count_at(slots, depth - 1, pair.first, sought)
                + count_at(slots, depth - 1, pair.second, sought)
        }
    }
}

/// Whether each of these windows is reached once from this one on.
fn are_met(slots: &[Window], depth: usize, win: u32, met: &[Window]) -> bool
    requires { tree_size (shape_of depth slots.now win) ≤ 64 }
    ensures { result ≡ one_tree.once met.now (shape_of depth slots.now win) }
{
    for window in met {
        if count_at(slots, depth, win, window.number) != 1 {
            return false;
        }
    }
    true
}

/// Whether the windows are one tree from this root on.
fn is_tree(slots: &[Window], root: u32) -> bool
    requires { length slots.now ≤ 64 }
    ensures { result ≡ is_tree_spelled slots.now (shape_of (length slots.now) slots.now root) }
{
    let depth = slots.len();
    rest_of(slots, depth, 0, root, depth).is_some() && are_met(slots, depth, root, slots)
}

/// Whether a window that is no pair is reached from this one on, to a depth.
fn has_leaf(slots: &[Window], depth: usize, win: u32, key: u32) -> bool
    ensures { result ≡ one_tree.has_leaf (shape_of depth slots.now win) key }
{
    if depth == 0 {
        return win == key;
    }
    match pair_at(slots, win) {
        None => win == key,
        Some(pair) => {
            has_leaf(slots, depth - 1, pair.first, key)
                || has_leaf(slots, depth - 1, pair.second, key)
        }
    }
}

/// Whether each pair from this window on has no key, or one below it that is no pair.
fn are_keyed(slots: &[Window], depth: usize, win: u32) -> bool
    ensures { result ≡ one_tree.are_keyed slots.now (shape_of depth slots.now win) }
{
    if depth == 0 {
        return true;
    }
    match pair_at(slots, win) {
        None => true,
        Some(pair) => {
            (pair.key == 0
                || has_leaf(slots, depth - 1, pair.first, pair.key)
                || has_leaf(slots, depth - 1, pair.second, pair.key))
                && are_keyed(slots, depth - 1, pair.first)
                && are_keyed(slots, depth - 1, pair.second)
        }
    }
}

impl Windows {
    /// Whether they are such as a story may have: in order, one tree, at most 64, and each sound.
    pub fn is_valid(&self) -> bool
        ensures holds { IsTrue result ↔ IsValidTree self.now }
        ensures within { self.now.next < 4294967296 }
    {
        self.passes()
    }

    /// The windows with these fields: the number of the next one, the root, and the windows by
    /// number. None where no story may have them.
    pub fn of_fields(next: u32, root: u32, slots: Vec<Window>) -> Option<Windows>
        ensures found { IfSome result (λ w.
            (w ≡ tree_with next root slots.items) × IsValidTree w) }
        ensures only { IfNone result (¬ IsValidTree (tree_with next root slots.items)) }
    {
        let windows = Windows { slots, next, root };
        if windows.is_valid() {
            Some(windows)
        } else {
            None
        }
    }

    fn passes(&self) -> bool
        ensures value { result ≡ fields.is_valid_tree self.now }
        ensures within { self.now.next < 4294967296 }
    {
        self.is_ordered()
            && self.slots.len() <= MAX_WINDOWS
            && are_sound(&self.slots)
            && self.is_one_tree()
            && are_keyed(&self.slots, self.slots.len(), self.root)
    }

    fn is_ordered(&self) -> bool
        ensures value { result ≡ fields.is_ordered self.now }
        ensures within { self.now.next < 4294967296 }
    {
        self.next != 0 && ascend(&self.slots, 0, self.next)
    }

    fn is_one_tree(&self) -> bool
        requires { length self.now.slots ≤ 64 }
        ensures { result ≡ valid.is_one_tree self.now }
    {
        if self.root == 0 {
            self.slots.is_empty()
        } else {
            is_tree(&self.slots, self.root)
        }
    }
}
