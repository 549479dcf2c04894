//! Windows with their entries for input, told and made (own).

ghost use Rattle.std.specs.Prelude.{◌≡◌, IfOk, map, true};
ghost use Rattle.std.specs.List.{zip};
ghost use Rattle.snap_glk.specs.Made as made;
ghost use Rattle.snap_glk.specs.Told as told;

use crate::inputs::{copy_of, tell_request};
use crate::make::Make;
use crate::unfit::Unfit;
use glk_input::WindowInput;
use glk_windows::{Buffer, Codes, Grid, Pair, Runs};
use snap_fields::{Items, SnapArea, SnapContent, SnapWindow};
use std::alloc::{AllocError, Global};

// ---- told

fn area_told(area: glk_windows::Area) -> SnapArea
    ensures { result ≡ told.area_told area }
{
    SnapArea {
        x: area.x,
        y: area.y,
        w: area.w,
        h: area.h,
    }
}

fn tell_content(alloc: Global, content: &glk_windows::Content) -> Result<SnapContent, AllocError>
    ensures { IfOk result (λ c. c ≡ told.content_told content.now) }
{
    match content {
        glk_windows::Content::Pair(pair) => Ok(SnapContent::Pair {
            method: pair.method,
            size: pair.size,
            key: pair.key,
            first: pair.first,
            second: pair.second,
        }),
        glk_windows::Content::Blank => Ok(SnapContent::Blank),
        glk_windows::Content::Buffer(_) => Ok(SnapContent::Buffer),
        glk_windows::Content::Grid(grid) => Ok(SnapContent::Grid {
            x: grid.x,
            y: grid.y,
            cells: copy_of(alloc, grid.cells.as_slice())?,
        }),
    }
}

fn tell_window(
    alloc: Global,
    window: &glk_windows::Window,
    input: &WindowInput,
) -> Result<SnapWindow, AllocError>
    ensures { IfOk result (λ w. w ≡ told.window_told (window.now, input.now)) }
{
    Ok(SnapWindow {
        number: window.number,
        rock: window.rock,
        stream: window.stream,
        echo_stream: window.echo,
        parent: window.parent,
        echo: input.echo,
        terminators: copy_of(alloc, input.keys.as_slice())?,
        area: area_told(window.area),
        content: tell_content(alloc, &window.content)?,
        request: tell_request(alloc, &input.request)?,
    })
}

/// The fields of each window with its entry for input, in order.
pub(crate) fn tell_windows(
    alloc: Global,
    windows: &[glk_windows::Window],
    inputs: &[WindowInput],
) -> Result<Items<SnapWindow>, AllocError>
    ensures { IfOk result (λ ws. ws ≡ map told.window_told (zip windows.now inputs.now)) }
{
    let mut list = Vec::new(alloc);
    for (window, input) in windows.iter().zip(inputs) {
        list.push(tell_window(alloc, window, input)?)?;
    }
    Ok(Items::of(list))
}

// ---- made

fn area_made(area: SnapArea) -> glk_windows::Area
    ensures { result ≡ made.area_made area }
{
    glk_windows::Area {
        x: area.x,
        y: area.y,
        w: area.w,
        h: area.h,
    }
}

fn make_content(
    alloc: Global,
    area: SnapArea,
    content: &SnapContent,
) -> Result<glk_windows::Content, AllocError>
    ensures { IfOk result (λ c. c ≡ made.content_made area content.now) }
{
    match content {
        SnapContent::Pair {
            method,
            size,
            key,
            first,
            second,
        } => Ok(glk_windows::Content::Pair(Pair {
            method: *method,
            size: *size,
            key: *key,
            first: *first,
            second: *second,
        })),
        SnapContent::Blank => Ok(glk_windows::Content::Blank),
        SnapContent::Buffer => Ok(glk_windows::Content::Buffer(Buffer {
            cleared: false,
            runs: Runs::new(alloc),
        })),
        SnapContent::Grid { x, y, cells } => Ok(glk_windows::Content::Grid(Grid {
            w: area.w,
            h: area.h,
            x: *x,
            y: *y,
            cells: Codes::of(Vec::from_slice(alloc, cells.as_slice())?),
        })),
    }
}

impl Make<glk_windows::Window> for SnapWindow {
    ghost made = { λ _ w. made.window_made w };

    ghost fits = { λ _. true };

    fn make(&self, alloc: Global, _windows: &[SnapWindow]) -> Result<glk_windows::Window, Unfit> {
        Ok(glk_windows::Window {
            number: self.number,
            rock: self.rock,
            stream: self.stream,
            echo: self.echo_stream,
            parent: self.parent,
            area: area_made(self.area),
            content: make_content(alloc, self.area, &self.content)?,
        })
    }
}
