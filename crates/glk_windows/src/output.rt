//! Output of windows (Glk 0.7.5, "Text Buffer Windows" and "Text Grid Windows").

ghost use Rattle.std.specs.Prelude.{◌≡◌, ◌≤◌, ◌<◌, ◌*◌, length, IfOk, OnErr, map};
ghost use Rattle.glk_windows.specs.Output as output;
ghost use Rattle.glk_windows.specs.Output.{buffer_put, cell_put, grid_put, next_grid_row};
ghost use Rattle.glk_windows.specs.Output.{content_cleared, content_kept, put_at_window};
ghost use Rattle.glk_windows.specs.Output.{window_put, window_cleared, window_kept};
ghost use Rattle.glk_windows.specs.Tree.{IsLive, set_at};

use crate::window::{Buffer, Content, Grid, Window};
use crate::windows::Windows;
use glk_numbers::place_of;
use std::alloc::{AllocError, Global};

impl Windows {
    /// Prints a code in a window: a buffer adds it to its text, in this style; a grid sets the cell
    /// of its cursor, and drops a code outside. Pairs and blank windows show nothing. An error is
    /// want of memory, and changes nothing.
    pub fn put(&mut self, alloc: Global, win: u32, code: u32, style: u32) -> Result<(), AllocError>
        ensures ok { IfOk result (λ _. self.new ≡ output.put_on_window self.old win code style) }
        ensures err { OnErr result (self.new ≡ self.old) }
    {
        put_in(alloc, &mut self.slots, win, code, style)
    }

    /// Clears a window: a buffer has no text, a grid has spaces and its cursor at the upper left.
    pub fn clear(&mut self, win: u32)
        requires { IsLive self.old win }
        ensures { self.new ≡ output.clear self.old win }
    {
        clear_in(&mut self.slots, win)
    }

    /// Forgets the clearings and texts that were kept for the last show.
    pub fn begin_turn(&mut self)
        ensures { self.new ≡ output.begin_turn self.old }
    {
        keep_all(&mut self.slots)
    }
}

fn put_in(
    alloc: Global,
    slots: &mut [Window],
    win: u32,
    code: u32,
    style: u32,
) -> Result<(), AllocError>
    ensures ok { IfOk result (λ _. slots.new ≡ put_at_window slots.old win code style) }
    ensures err { OnErr result (slots.new ≡ slots.old) }
{
    match place_of(slots, win) {
        None => Ok(()),
        Some(at) => put_window(alloc, &mut slots[at], code, style),
    }
}

fn put_window(alloc: Global, window: &mut Window, code: u32, style: u32) -> Result<(), AllocError>
    ensures ok { IfOk result (λ _. window.new ≡ window_put window.old code style) }
    ensures err { OnErr result (window.new ≡ window.old) }
{
    match &mut window.content {
        Content::Buffer(buffer) => put_buffer(alloc, buffer, code, style),
        Content::Grid(grid) => {
            put_grid(grid, code);
            Ok(())
        }
        _ => Ok(()),
    }
}

fn put_buffer(alloc: Global, buffer: &mut Buffer, code: u32, style: u32) -> Result<(), AllocError>
    ensures ok { IfOk result (λ _. buffer.new ≡ buffer_put buffer.old code style) }
    ensures err { OnErr result (buffer.new ≡ buffer.old) }
{
    buffer.runs.push(alloc, code, style)
}

fn put_grid(grid: &mut Grid, code: u32)
    ensures { grid.new ≡ grid_put grid.old code }
{
    if code == 10 {
        return down(grid);
    }
    if grid.x >= grid.w {
        down(grid);
    }
    put_cell(grid, code)
}

fn down(grid: &mut Grid)
    ensures { grid.new ≡ next_grid_row grid.old }
{
    grid.x = 0;
    if grid.y != u32::MAX {
        grid.y += 1;
    }
}

fn put_cell(grid: &mut Grid, code: u32)
    ensures { grid.new ≡ cell_put grid.old code }
{
    if grid.x < grid.w && grid.y < grid.h {
        let at = grid.y as usize * grid.w as usize + grid.x as usize;
        grid.cells.set(at, code);
        grid.x += 1;
    }
}

fn clear_in(slots: &mut [Window], win: u32)
    ensures { slots.new ≡ set_at window_cleared slots.old win }
{
    match place_of(slots, win) {
        None => {}
        Some(at) => clear_window(&mut slots[at]),
    }
}

fn clear_window(window: &mut Window)
    ensures { window.new ≡ window_cleared window.old }
{
    match &mut window.content {
        Content::Buffer(buffer) => {
            buffer.cleared = true;
            buffer.runs.clear();
        }
        Content::Grid(grid) => {
            grid.x = 0;
            grid.y = 0;
            grid.cells.fill(32);
        }
        _ => {}
    }
}

fn keep_all(slots: &mut [Window])
    ensures { slots.new ≡ map window_kept slots.old }
{
    for slot in slots.iter_mut() {
        keep(slot);
    }
}

fn keep(window: &mut Window)
    ensures { window.new ≡ window_kept window.old }
{
    match &mut window.content {
        Content::Buffer(buffer) => {
            buffer.cleared = false;
            buffer.runs.clear();
        }
        _ => {}
    }
}
