//! The rectangles of the windows (Glk 0.7.5, "Window Opening, Closing, and Constraints").

ghost use Rattle.std.specs.Prelude.{◌≡◌, ◌≤◌, ◌<◌, ◌^◌, ◌*◌, IfOk, OnErr};
ghost use Rattle.glk_windows.specs.Placing as placing;
ghost use Rattle.glk_windows.specs.Placing.{IsOnScreen, IsPartPlaced, first_part, windows_placed};
ghost use Rattle.glk_windows.specs.Placing.{second_part, with_area};

use crate::changing::window_at;
use crate::reading::pair_at;
use crate::resizing::resize;
use crate::window::{Area, Content, Pair, Window};
use crate::windows::Windows;
use glk_numbers::place_of;
use std::alloc::{AllocError, Global};

impl Windows {
    /// Gives each window its rectangle of a screen of `cols` by `rows` characters. A grid that
    /// changes its size keeps the cells that fit. An error is want of memory: then some windows
    /// may have been given rectangles, one after another, and nothing else changed.
    pub fn place(&mut self, alloc: Global, cols: u32, rows: u32) -> Result<(), AllocError>
        ensures ok { IfOk result (λ _. self.new ≡ placing.place self.old cols rows) }
        ensures err { OnErr result (placing.IsTreePartPlaced self.old self.new) }
    {
        let screen = Area {
            x: 0,
            y: 0,
            w: cols,
            h: rows,
        };
        let root = self.root;
        let depth = self.slots.len();
        place_at(alloc, &mut self.slots, depth, root, screen)
    }
}

// Gives the window and those below it their rectangles, to this depth.
#[tactic(auto, unfolding(crate::specs::Placing::windows_placed))]
fn place_at(
    alloc: Global,
    slots: &mut [Window],
    depth: usize,
    win: u32,
    area: Area,
) -> Result<(), AllocError>
    requires { IsOnScreen area }
    ensures ok { IfOk result (λ _. slots.new ≡ windows_placed depth slots.old win area) }
    ensures err { OnErr result (IsPartPlaced slots.old slots.new) }
{
    if depth == 0 {
        return Ok(());
    }
    let pair = pair_at(slots, win);
    size_at_number(alloc, slots, win, area)?;
    match pair {
        Some(pair) => {
            let (first, second) = divide(pair, has_size(slots, pair.key), area);
            place_at(alloc, slots, depth - 1, pair.first, first)?;
            place_at(alloc, slots, depth - 1, pair.second, second)
        }
        None => Ok(()),
    }
}

// A window that is no blank one is there.
pub(crate) fn has_size(slots: &[Window], win: u32) -> bool
    ensures { result ≡ placing.has_size slots.now win }
{
    match window_at(slots, win) {
        None => false,
        Some(window) => shows(&window.content),
    }
}

fn shows(content: &Content) -> bool
    ensures { result ≡ placing.is_shown_content content.now }
{
    !matches!(content, Content::Blank)
}

// How much of the extent the second window gets.
pub(crate) fn share(pair: Pair, sized: bool, extent: u32) -> u32
    ensures value { result ≡ placing.share pair sized extent }
    ensures within { result ≤ extent }
{
    let wanted = if pair.method & 0x10 == 0 {
        u64::from(extent) * u64::from(pair.size) / 100
    } else if sized {
        u64::from(pair.size)
    } else {
        0
    };
    wanted.min(u64::from(extent)) as u32
}

// The rectangles of the two below a pair.
fn divide(pair: Pair, sized: bool, area: Area) -> (Area, Area)
    requires { IsOnScreen area }
    ensures value { result ≡ (first_part pair sized area, second_part pair sized area) }
    ensures first { IsOnScreen result.0 }
    ensures second { IsOnScreen result.1 }
{
    let after = pair.method & 1 != 0;
    if pair.method & 2 != 0 {
        let h = share(pair, sized, area.h);
        let rest = area.h - h;
        (
            Area {
                y: if after { area.y } else { area.y + h },
                h: rest,
                ..area
            },
            Area {
                y: if after { area.y + rest } else { area.y },
                h,
                ..area
            },
        )
    } else {
        let w = share(pair, sized, area.w);
        let rest = area.w - w;
        (
            Area {
                x: if after { area.x } else { area.x + w },
                w: rest,
                ..area
            },
            Area {
                x: if after { area.x + rest } else { area.x },
                w,
                ..area
            },
        )
    }
}

fn size_at_number(
    alloc: Global,
    slots: &mut [Window],
    win: u32,
    area: Area,
) -> Result<(), AllocError>
    ensures ok { IfOk result (λ _. slots.new ≡ with_area slots.old win area) }
    ensures err { OnErr result (slots.new ≡ slots.old) }
{
    match place_of(slots, win) {
        None => Ok(()),
        Some(at) => resize(alloc, &mut slots[at], area),
    }
}
