//! A show as lines (own: docs/FORMATS.md, "Shows").

ghost use Rattle.std.specs.Prelude.{◌≡◌, ◌++◌, IfOk};
ghost use Rattle.std.specs.List.{flat_map};
ghost use Rattle.story_show.specs.Lines as lines;
ghost use Rattle.story_show.specs.Words.{AddsText};

use crate::show::{End, Part, Place, Show};
use crate::words::{write_field, write_text};
use std::alloc::{AllocError, Global};

/// The show's lines as bytes, each with LF: places, parts and ends. An error is want of memory.
pub fn write_show(alloc: Global, shown: &Show) -> Result<Vec<u8>, AllocError>
    ensures { IfOk result (λ out. out.items ≡ lines.text_of_show shown.now) }
{
    let mut out = Vec::new(alloc);
    write_places(&mut out, shown.places.as_slice())?;
    write_parts(alloc, &mut out, shown.parts.as_slice())?;
    write_ends(alloc, &mut out, shown.ends.as_slice())?;
    Ok(out)
}

fn write_places(out: &mut Vec<u8>, places: &[Place]) -> Result<(), AllocError>
    ensures { AddsText (flat_map lines.place_line places.now) out.old.items out.new.items result }
{
    for place in places {
        write_place(out, place)?;
    }
    Ok(())
}

fn write_parts(alloc: Global, out: &mut Vec<u8>, parts: &[Part]) -> Result<(), AllocError>
    ensures { AddsText (flat_map lines.part_line parts.now) out.old.items out.new.items result }
{
    for part in parts {
        write_part(alloc, out, part)?;
    }
    Ok(())
}

fn write_ends(alloc: Global, out: &mut Vec<u8>, ends: &[End]) -> Result<(), AllocError>
    ensures { AddsText (flat_map lines.end_line ends.now) out.old.items out.new.items result }
{
    for end in ends {
        write_end(alloc, out, end)?;
    }
    Ok(())
}

#[tactic(auto, unfolding(crate::specs::Lines::place_line))]
fn write_place(out: &mut Vec<u8>, place: &Place) -> Result<(), AllocError>
    ensures { AddsText (lines.place_line place.now) out.old.items out.new.items result }
{
    out.push(b'W')?;
    write_field(out, place.id)?;
    write_field(out, place.kind)?;
    write_field(out, place.x)?;
    write_field(out, place.y)?;
    write_field(out, place.w)?;
    write_field(out, place.h)?;
    out.push(b'\n')?;
    Ok(())
}

#[tactic(auto, unfolding(crate::specs::Lines::part_line))]
fn write_part(alloc: Global, out: &mut Vec<u8>, part: &Part) -> Result<(), AllocError>
    ensures { AddsText (lines.part_line part.now) out.old.items out.new.items result }
{
    match part {
        Part::Clear { id } => {
            out.push(b'C')?;
            write_field(out, *id)?;
            out.push(b'\n')?;
            Ok(())
        }
        Part::Run { id, style, text } => {
            out.push(b'T')?;
            write_field(out, *id)?;
            write_field(out, *style)?;
            write_text(alloc, out, text.as_slice())
        }
        Part::GridRow { id, y, text } => {
            out.push(b'G')?;
            write_field(out, *id)?;
            write_field(out, *y)?;
            write_text(alloc, out, text.as_slice())
        }
    }
}

#[tactic(auto, unfolding(crate::specs::Lines::end_line))]
fn write_end(alloc: Global, out: &mut Vec<u8>, end: &End) -> Result<(), AllocError>
    ensures { AddsText (lines.end_line end.now) out.old.items out.new.items result }
{
    match end {
        End::Quit => out.extend_from_slice(b"E quit\n"),
        End::Fault(code) => {
            out.extend_from_slice(b"E fault")?;
            write_field(out, u32::from(*code))?;
            out.push(b'\n')?;
            Ok(())
        }
        End::Prompt { usage, mode } => {
            out.push(b'P')?;
            write_field(out, *usage)?;
            write_field(out, *mode)?;
            out.push(b'\n')?;
            Ok(())
        }
        End::WantLine { id, max, initial } => {
            out.push(b'I')?;
            write_field(out, *id)?;
            out.extend_from_slice(b" line")?;
            write_field(out, *max)?;
            write_text(alloc, out, initial.as_slice())
        }
        End::WantChar { id } => {
            out.push(b'I')?;
            write_field(out, *id)?;
            out.extend_from_slice(b" char\n")
        }
    }
}
