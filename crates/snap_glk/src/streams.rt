//! Streams, told and made (own).

ghost use Rattle.std.specs.Prelude.{◌≡◌, IfOk, true};
ghost use Rattle.snap_glk.specs.Made as made;
ghost use Rattle.snap_glk.specs.Making.{MakesIfFit};
ghost use Rattle.snap_glk.specs.Texts.{is_text_in, is_text_of_stream};
ghost use Rattle.snap_glk.specs.Told as told;

use crate::make::Make;
use crate::tell::Tell;
use crate::texts::{codes_of, text_of};
use crate::unfit::Unfit;
use snap_fields::{SnapStream, SnapTarget, SnapWindow};
use std::alloc::{AllocError, Global};

fn tell_target(alloc: Global, target: &glk_streams::Target) -> Result<SnapTarget, AllocError>
    ensures { IfOk result (λ t.
        (t ≡ told.target_told target.now) × (is_text_in t ≡ true)) }
{
    match target {
        glk_streams::Target::Window(_) => Ok(SnapTarget::Window),
        glk_streams::Target::Memory { buf, len } => Ok(SnapTarget::Memory {
            buffer: *buf,
            length: *len,
        }),
        glk_streams::Target::File { usage, name } => Ok(SnapTarget::File {
            usage: *usage,
            name: codes_of(alloc, name)?,
        }),
    }
}

impl Tell<SnapStream> for glk_streams::Stream {
    ghost told = { told.stream_told };

    ghost is_kept = { is_text_of_stream };

    fn tell(&self, alloc: Global) -> Result<SnapStream, AllocError> {
        Ok(SnapStream {
            number: self.number,
            rock: self.rock,
            mode: self.mode,
            style: self.style,
            read: self.read,
            written: self.written,
            position: self.place,
            unicode: self.unicode,
            target: tell_target(alloc, &self.target)?,
        })
    }
}

/// The first window that has this stream, or 0.
#[tactic(auto, unfolding(crate::specs::Made::window_with))]
fn window_with(windows: &[SnapWindow], stream: u32) -> u32
    ensures { result ≡ made.window_with windows.now stream }
{
    for window in windows {
        if window.stream == stream {
            return window.number;
        }
    }
    0
}

fn make_target(
    alloc: Global,
    windows: &[SnapWindow],
    stream: u32,
    target: &SnapTarget,
) -> Result<glk_streams::Target, Unfit>
    ensures { MakesIfFit (made.target_made windows.now stream) is_text_in target.now result }
{
    match target {
        SnapTarget::Window => Ok(glk_streams::Target::Window(window_with(windows, stream))),
        SnapTarget::Memory { buffer, length } => Ok(glk_streams::Target::Memory {
            buf: *buffer,
            len: *length,
        }),
        SnapTarget::File { usage, name } => Ok(glk_streams::Target::File {
            usage: *usage,
            name: text_of(alloc, name.as_slice())?,
        }),
    }
}

impl Make<glk_streams::Stream> for SnapStream {
    ghost made = { made.stream_made };

    ghost fits = { is_text_of_stream };

    fn make(&self, alloc: Global, windows: &[SnapWindow]) -> Result<glk_streams::Stream, Unfit> {
        Ok(glk_streams::Stream {
            number: self.number,
            rock: self.rock,
            mode: self.mode,
            style: self.style,
            read: self.read,
            written: self.written,
            place: self.position,
            unicode: self.unicode,
            target: make_target(alloc, windows, self.number, &self.target)?,
        })
    }
}
