//! Writing windows and streams (own).

ghost use Rattle.std.specs.Prelude.{◌≡◌, OnOk};
ghost use Rattle.snap_fields.specs.Counts.{CountsRequest, CountsTarget, HasCells};
ghost use Rattle.snap_fields.specs.Printable.{IsArea, IsContent, IsGlkRequest, IsTarget};
ghost use Rattle.snap_fields.specs.Printing.{target_kind, print_area, print_content};
ghost use Rattle.snap_fields.specs.Printing.{print_glk_request, print_target, type_of};
ghost use Rattle.snap_fields.specs.Writing.{PutsBehind};

use crate::glk::{SnapArea, SnapContent, SnapRequest, SnapTarget};
use crate::item::{put_list, put_many};
use crate::put::{put_flag1, put1, put4};
use std::alloc::AllocError;

impl SnapContent {
    /// The window's type.
    pub fn kind(&self) -> u32
        ensures { result ≡ type_of self.now }
    {
        match self {
            SnapContent::Pair { .. } => 1,
            SnapContent::Blank => 2,
            SnapContent::Buffer => 3,
            SnapContent::Grid { .. } => 4,
        }
    }
}

impl SnapTarget {
    /// The stream's kind: 0 of a window, 1 of memory, 2 of a file.
    pub fn kind(&self) -> u8
        ensures { result ≡ target_kind self.now }
    {
        match self {
            SnapTarget::Window => 0,
            SnapTarget::Memory { .. } => 1,
            SnapTarget::File { .. } => 2,
        }
    }
}

pub fn put_area(out: &mut Vec<u8>, area: SnapArea) -> Result<(), AllocError>
    ensures { OnOk result (PutsBehind print_area IsArea area out.old.items out.new.items) }
{
    put4(out, area.x)?;
    put4(out, area.y)?;
    put4(out, area.w)?;
    put4(out, area.h)
}

pub fn put_content(
    out: &mut Vec<u8>,
    area: SnapArea,
    content: &SnapContent,
) -> Result<(), AllocError>
    requires { HasCells area content.now }
    ensures { OnOk result (PutsBehind print_content (IsContent area) content.now
        out.old.items out.new.items) }
{
    match content {
        SnapContent::Pair {
            method,
            size,
            key,
            first,
            second,
        } => {
            put4(out, *method)?;
            put4(out, *size)?;
            put4(out, *key)?;
            put4(out, *first)?;
            put4(out, *second)?;
            Ok(())
        }
        SnapContent::Blank => Ok(()),
        SnapContent::Buffer => Ok(()),
        SnapContent::Grid { x, y, cells } => {
            put4(out, *x)?;
            put4(out, *y)?;
            put_many(out, cells.as_slice())
        }
    }
}

pub fn put_request(out: &mut Vec<u8>, request: &SnapRequest) -> Result<(), AllocError>
    requires { CountsRequest request.now }
    ensures { OnOk result
        (PutsBehind print_glk_request IsGlkRequest request.now out.old.items out.new.items) }
{
    match request {
        SnapRequest::Nothing => put1(out, 0),
        SnapRequest::Line {
            unicode,
            buffer,
            maximum,
            initial,
            echo,
            terminators,
        } => {
            put1(out, 1)?;
            put_flag1(out, *unicode)?;
            put4(out, *buffer)?;
            put4(out, *maximum)?;
            put4(out, *initial)?;
            put_flag1(out, *echo)?;
            put_list(out, terminators.as_slice())?;
            Ok(())
        }
        SnapRequest::Char { unicode } => {
            put1(out, 2)?;
            put_flag1(out, *unicode)
        }
    }
}

pub fn put_target(out: &mut Vec<u8>, target: &SnapTarget) -> Result<(), AllocError>
    requires { CountsTarget target.now }
    ensures { OnOk result
        (PutsBehind print_target IsTarget target.now out.old.items out.new.items) }
{
    match target {
        SnapTarget::Window => Ok(()),
        SnapTarget::Memory { buffer, length } => {
            put4(out, *buffer)?;
            put4(out, *length)
        }
        SnapTarget::File { usage, name } => {
            put4(out, *usage)?;
            put_list(out, name.as_slice())
        }
    }
}
