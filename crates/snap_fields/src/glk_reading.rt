//! Reading windows, streams, file references and files (own).

ghost use Rattle.snap_fields.specs.Reading.{ReadsFront};
ghost use Rattle.snap_fields.specs.GlkItems.{area_at, content_at, request_at, target_at};

use crate::cursor::Cursor;
use crate::fault::SnapFault;
use crate::glk::{SnapArea, SnapContent, SnapRequest, SnapTarget};
use crate::item::{list, many};
use std::alloc::Global;

#[tactic(auto, unfolding(crate::specs::GlkItems::area_at))]
pub fn area(from: &mut Cursor<'_>) -> Result<SnapArea, SnapFault>
    ensures { ReadsFront area_at from.old from.new result }
{
    Ok(SnapArea {
        x: from.n4()?,
        y: from.n4()?,
        w: from.n4()?,
        h: from.n4()?,
    })
}

/// What a window of this type and rectangle holds.
#[tactic(auto, unfolding(crate::specs::GlkItems::content_at))]
pub fn content(
    alloc: Global,
    from: &mut Cursor<'_>,
    kind: u32,
    area: SnapArea,
) -> Result<SnapContent, SnapFault>
    ensures { ReadsFront (content_at kind area) from.old from.new result }
{
    match kind {
        1 => Ok(SnapContent::Pair {
            method: from.n4()?,
            size: from.n4()?,
            key: from.n4()?,
            first: from.n4()?,
            second: from.n4()?,
        }),
        2 => Ok(SnapContent::Blank),
        3 => Ok(SnapContent::Buffer),
        4 => Ok(SnapContent::Grid {
            x: from.n4()?,
            y: from.n4()?,
            cells: many(alloc, from, u64::from(area.w) * u64::from(area.h))?,
        }),
        _ => Err(SnapFault::BadSnap),
    }
}

#[tactic(auto, unfolding(crate::specs::GlkItems::request_at))]
pub fn request(alloc: Global, from: &mut Cursor<'_>) -> Result<SnapRequest, SnapFault>
    ensures { ReadsFront request_at from.old from.new result }
{
    match from.n1()? {
        0 => Ok(SnapRequest::Nothing),
        1 => Ok(SnapRequest::Line {
            unicode: from.flag1()?,
            buffer: from.n4()?,
            maximum: from.n4()?,
            initial: from.n4()?,
            echo: from.flag1()?,
            terminators: list(alloc, from)?,
        }),
        2 => Ok(SnapRequest::Char {
            unicode: from.flag1()?,
        }),
        _ => Err(SnapFault::BadSnap),
    }
}

/// Where the characters of a stream of this kind go.
#[tactic(auto, unfolding(crate::specs::GlkItems::target_at))]
pub fn target(alloc: Global, from: &mut Cursor<'_>, kind: u8) -> Result<SnapTarget, SnapFault>
    ensures { ReadsFront (target_at kind) from.old from.new result }
{
    match kind {
        0 => Ok(SnapTarget::Window),
        1 => Ok(SnapTarget::Memory {
            buffer: from.n4()?,
            length: from.n4()?,
        }),
        2 => Ok(SnapTarget::File {
            usage: from.n4()?,
            name: list(alloc, from)?,
        }),
        _ => Err(SnapFault::BadSnap),
    }
}
