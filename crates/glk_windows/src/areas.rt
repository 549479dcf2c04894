//! Whether windows have their rectangles (Glk 0.7.5, "Window Opening, Closing, and Constraints").

ghost use Rattle.std.specs.Prelude.{◌≡◌, ◌+◌, ◌==◌, ◌↔◌, IsTrue};
ghost use Rattle.glk_windows.specs.Areas.{HaveAreas};
ghost use Rattle.glk_windows.specs.Fields as fields;
ghost use Rattle.glk_windows.specs.Fields.{is_same};
ghost use Rattle.glk_windows.specs.Laws as laws;
ghost use Rattle.glk_windows.specs.Placing.{first_part, second_part};
ghost use Rattle.glk_windows.specs.Tree as tree;
ghost use Rattle.glk_windows.specs.Valid.{IsValidTree};

use crate::changing::window_at;
use crate::placing::{has_size, share};
use crate::reading::pair_in;
use crate::window::{Area, Pair, Window};
use crate::windows::Windows;

/// The rectangle of the window with this number, that of no cell where it isn't there.
fn area_at(slots: &[Window], win: u32) -> Area
    ensures { result ≡ laws.window_area slots.now win }
{
    match window_at(slots, win) {
        None => Area {
            x: 0,
            y: 0,
            w: 0,
            h: 0,
        },
        Some(window) => window.area,
    }
}

/// Whether a window's part of a side begins so far behind the whole side.
fn begins(part: u32, whole: u32, behind: u32) -> bool
    ensures { result ≡ (part == whole + behind) }
{
    u64::from(part) == u64::from(whole) + u64::from(behind)
}

/// Whether the first window of a pair has its part of the rectangle.
fn is_first_part(part: Area, pair: Pair, sized: bool, area: Area) -> bool
    ensures { result ≡ is_same part (first_part pair sized area) }
{
    let after = pair.method & 1 != 0;
    if pair.method & 2 != 0 {
        let other = share(pair, sized, area.h);
        part.x == area.x
            && begins(part.y, area.y, if after { 0 } else { other })
            && part.w == area.w
            && part.h == area.h - other
    } else {
        let other = share(pair, sized, area.w);
        begins(part.x, area.x, if after { 0 } else { other })
            && part.y == area.y
            && part.w == area.w - other
            && part.h == area.h
    }
}

/// Whether the second window of a pair has its part of the rectangle.
fn is_second_part(part: Area, pair: Pair, sized: bool, area: Area) -> bool
    ensures { result ≡ is_same part (second_part pair sized area) }
{
    let after = pair.method & 1 != 0;
    if pair.method & 2 != 0 {
        let own = share(pair, sized, area.h);
        part.x == area.x
            && begins(part.y, area.y, if after { area.h - own } else { 0 })
            && part.w == area.w
            && part.h == own
    } else {
        let own = share(pair, sized, area.w);
        begins(part.x, area.x, if after { area.w - own } else { 0 })
            && part.y == area.y
            && part.w == own
            && part.h == area.h
    }
}

/// Whether the two windows of a pair have their parts of its rectangle.
fn has_parts(slots: &[Window], window: &Window) -> bool
    ensures { result ≡ fields.has_parts slots.now (tree.pair_in window.now) window.now.area }
{
    match pair_in(&window.content) {
        None => true,
        Some(pair) => {
            let sized = has_size(slots, pair.key);
            is_first_part(area_at(slots, pair.first), pair, sized, window.area)
                && is_second_part(area_at(slots, pair.second), pair, sized, window.area)
        }
    }
}

#[tactic(auto, unfolding(crate::specs::Fields::have_parts))]
fn have_parts(slots: &[Window]) -> bool
    ensures { result ≡ fields.have_parts slots.now slots.now }
{
    for window in slots {
        if !has_parts(slots, window) {
            return false;
        }
    }
    true
}

impl Windows {
    /// Whether each window has its rectangle of a screen of so many characters, as `place` gives
    /// it.
    pub fn have_areas(&self, cols: u32, rows: u32) -> bool
        requires { IsValidTree self.now }
        ensures { IsTrue result ↔ HaveAreas self.now cols rows }
    {
        self.fill(cols, rows)
    }

    fn fill(&self, cols: u32, rows: u32) -> bool
        ensures { result ≡ fields.have_areas self.now cols rows }
    {
        self.has_screen(cols, rows) && have_parts(&self.slots)
    }

    /// Whether the root has the whole screen.
    fn has_screen(&self, cols: u32, rows: u32) -> bool
        ensures { result ≡ fields.has_screen self.now cols rows }
    {
        match window_at(&self.slots, self.root) {
            None => true,
            Some(window) => {
                let area = window.area;
                area.x == 0 && area.y == 0 && area.w == cols && area.h == rows
            }
        }
    }
}
