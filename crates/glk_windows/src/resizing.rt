//! Grids that change their size (Glk 0.7.5, "Text Grid Windows").

ghost use Rattle.std.specs.Prelude.{◌≡◌, ◌≤◌, ◌<◌, ◌-◌, ◌++◌, length, take, drop, IfOk, OnErr};
ghost use Rattle.glk_windows.specs.Resizing as sizes;

use crate::text::Codes;
use crate::window::{Area, Content, Grid, Window};
use std::alloc::{AllocError, Global};

// How many of the first n there are.
#[tactic(auto, using(std::proofs::lemmas::List::take_all, std::proofs::lemmas::List::drop_all))]
fn at_most(cells: &[u32], n: usize) -> usize
    ensures within { result ≤ length cells.now }
    ensures front { take result cells.now ≡ take n cells.now }
    ensures back { drop result cells.now ≡ drop n cells.now }
{
    if cells.len() < n { cells.len() } else { n }
}

#[tactic(auto, unfolding(crate::specs::Resizing::row_sized))]
fn push_row(out: &mut Vec<u32>, w: u32, row: &[u32]) -> Result<(), AllocError>
    ensures { IfOk result (λ _. out.new.items ≡ out.old.items ++ sizes.row_sized w row.now) }
{
    let (kept, _) = row.split_at(at_most(row, w as usize));
    out.extend_from_slice(kept)?;
    let spaces = (w as usize).saturating_sub(row.len());
    out.resize(out.len() + spaces, 32)
}

// So many rows of width `w`, from rows of the width `old`.
fn push_rows(
    out: &mut Vec<u32>,
    count: u32,
    w: u32,
    old: u32,
    cells: &[u32],
) -> Result<(), AllocError>
    ensures { IfOk result (λ _.
        out.new.items ≡ out.old.items ++ sizes.rows_sized count w old cells.now) }
{
    let mut left = count;
    let mut rest = cells;
    while left > 0 {
        let (row, below) = rest.split_at(at_most(rest, old as usize));
        push_row(out, w, row)?;
        rest = below;
        left -= 1;
    }
    Ok(())
}

fn resize_grid(alloc: Global, grid: &mut Grid, w: u32, h: u32) -> Result<(), AllocError>
    ensures ok { IfOk result (λ _. grid.new ≡ sizes.grid_sized grid.old w h) }
    ensures err { OnErr result (grid.new ≡ grid.old) }
{
    if grid.w == w && grid.h == h {
        return Ok(());
    }
    let mut cells = Vec::new(alloc);
    push_rows(&mut cells, h, w, grid.w, grid.cells.as_slice())?;
    grid.cells = Codes::of(cells);
    grid.w = w;
    grid.h = h;
    Ok(())
}

/// Gives a window its rectangle. An error is want of memory, and changes nothing.
pub(crate) fn resize(alloc: Global, window: &mut Window, area: Area) -> Result<(), AllocError>
    ensures ok { IfOk result (λ _. window.new ≡ sizes.sized area window.old) }
    ensures err { OnErr result (window.new ≡ window.old) }
{
    match &mut window.content {
        Content::Grid(grid) => resize_grid(alloc, grid, area.w, area.h)?,
        _ => {}
    }
    window.area = area;
    Ok(())
}
