//! What of the windows is shown (own: docs/FORMATS.md, "Shows").

ghost use Rattle.std.specs.Prelude.{◌≡◌, ◌≤◌, ◌<◌, ◌+◌, ◌^◌, ◌++◌, IfOk, drop, length, map, take};
ghost use Rattle.std.specs.List.{flat_map};
ghost use Rattle.story_show.specs.Making as making;

use crate::show::{End, Ends, Part, Parts, Place, Places, Show};
use glk_windows::{Area, Buffer, Codes, Content, Run, Window, Windows};
use std::alloc::{AllocError, Global};

/// The show of the windows: for each by ascending number its place, and then what it shows. An
/// error is want of memory.
pub fn show_of(alloc: Global, windows: &Windows, ends: Ends) -> Result<Show, AllocError>
    ensures { IfOk result (λ shown. shown ≡ making.show_of windows.now ends) }
{
    let places = places_of(alloc, windows.slots())?;
    let parts = parts_of(alloc, windows.slots())?;
    Ok(Show {
        places: Places::of(places),
        parts: Parts::of(parts),
        ends,
    })
}

fn places_of(alloc: Global, windows: &[Window]) -> Result<Vec<Place>, AllocError>
    ensures { IfOk result (λ out. out.items ≡ flat_map making.window_places windows.now) }
{
    let mut out = Vec::new(alloc);
    for window in windows {
        push_place(&mut out, window)?;
    }
    Ok(out)
}

fn parts_of(alloc: Global, windows: &[Window]) -> Result<Vec<Part>, AllocError>
    ensures { IfOk result (λ out. out.items ≡ flat_map making.window_parts windows.now) }
{
    let mut out = Vec::new(alloc);
    for window in windows {
        push_parts(alloc, &mut out, window)?;
    }
    Ok(out)
}

#[tactic(auto, unfolding(crate::specs::Making::window_places))]
fn push_place(out: &mut Vec<Place>, window: &Window) -> Result<(), AllocError>
    ensures { IfOk result (λ _.
        out.new.items ≡ out.old.items ++ making.window_places window.now) }
{
    let kind = match &window.content {
        Content::Pair(_) => return Ok(()),
        Content::Blank => 2,
        Content::Buffer(_) => 3,
        Content::Grid(_) => 4,
    };
    out.push(place_at(window.number, kind, window.area))?;
    Ok(())
}

fn place_at(id: u32, kind: u32, area: Area) -> Place
    ensures { result ≡ making.window_place id kind area }
{
    Place {
        id,
        kind,
        x: area.x,
        y: area.y,
        w: area.w,
        h: area.h,
    }
}

#[tactic(auto, unfolding(crate::specs::Making::window_parts))]
fn push_parts(alloc: Global, out: &mut Vec<Part>, window: &Window) -> Result<(), AllocError>
    ensures { IfOk result (λ _.
        out.new.items ≡ out.old.items ++ making.window_parts window.now) }
{
    match &window.content {
        Content::Pair(_) | Content::Blank => Ok(()),
        Content::Buffer(buffer) => push_buffer(alloc, out, window.number, buffer),
        Content::Grid(grid) => {
            push_rows(
                alloc,
                out,
                window.number,
                grid.w,
                grid.h,
                grid.cells.as_slice(),
            )
        },
    }
}

fn push_buffer(
    alloc: Global,
    out: &mut Vec<Part>,
    id: u32,
    buffer: &Buffer,
) -> Result<(), AllocError>
    ensures { IfOk result (λ _.
        out.new.items ≡ out.old.items ++ making.buffer_parts id buffer.now) }
{
    if buffer.cleared {
        out.push(Part::Clear { id })?;
    }
    push_runs(alloc, out, id, buffer.runs.as_slice())
}

fn push_runs(alloc: Global, out: &mut Vec<Part>, id: u32, runs: &[Run]) -> Result<(), AllocError>
    ensures { IfOk result (λ _.
        out.new.items ≡ out.old.items ++ map (making.run_part id) runs.now) }
{
    for run in runs {
        let text = copy_of(alloc, run.codes.as_slice())?;
        out.push(Part::Run {
            id,
            style: run.style,
            text,
        })?;
    }
    Ok(())
}

fn copy_of(alloc: Global, codes: &[u32]) -> Result<Codes, AllocError>
    ensures { IfOk result (λ copy. copy ≡ codes.now) }
{
    Ok(Codes::of(Vec::from_slice(alloc, codes)?))
}

// How many of the first n there are.
#[tactic(auto, using(std::proofs::lemmas::List::take_all, std::proofs::lemmas::List::drop_all))]
fn at_most(cells: &[u32], n: usize) -> usize
    ensures within { result ≤ length cells.now }
    ensures front { take result cells.now ≡ take n cells.now }
    ensures back { drop result cells.now ≡ drop n cells.now }
{
    if cells.len() < n { cells.len() } else { n }
}

// The `h` rows of a grid of width `w`.
fn push_rows(
    alloc: Global,
    out: &mut Vec<Part>,
    id: u32,
    w: u32,
    h: u32,
    cells: &[u32],
) -> Result<(), AllocError>
    ensures { IfOk result (λ _.
        out.new.items ≡ out.old.items ++ making.row_parts h id 0 w cells.now) }
{
    let mut rest = cells;
    let mut y = 0;
    while y < h {
        let (row, below) = rest.split_at(at_most(rest, w as usize));
        let text = copy_of(alloc, row)?;
        out.push(Part::GridRow { id, y, text })?;
        rest = below;
        y += 1;
    }
    Ok(())
}
