//! Positions in streams (Glk 0.7.5, "Streams").

ghost use Rattle.std.specs.Prelude.{◌≡◌, ◌≤◌, OnErr};
ghost use Rattle.glk_streams.specs.Answer.{AnswersOfStreams, LeavesStreams, TakesNoMemory};
ghost use Rattle.glk_streams.specs.Position as position;

use crate::fault::StreamStop;
use crate::file::{File, content_of};
use crate::find::find;
use crate::output::length_of;
use crate::stream::{Stream, Target};
use crate::streams::Streams;

impl Stream {
    /// How many positions there are; none in a window's stream.
    pub(crate) fn end(&self, files: &[File]) -> u32
        ensures { result ≡ position.end_position files.now self.now }
    {
        match &self.target {
            Target::Window(_) => 0,
            Target::Memory { buf, len } => length_of(*buf, *len),
            Target::File { usage, name } => {
                self.coding().units(content_of(files, *usage, name)) as u32
            }
        }
    }

    /// The position: a window's is its write count.
    fn position(&self, files: &[File]) -> u32
        ensures { result ≡ position.place_in self.now.target files.now self.now }
    {
        match &self.target {
            Target::Window(_) => self.written,
            Target::Memory { .. } => self.place.min(self.end(files)),
            Target::File { .. } => self.place.min(self.end(files)),
        }
    }

    /// Where a distance from this or that leads.
    fn sought(&self, files: &[File], by: u32, from: u32) -> u32
        ensures { result ≡ position.sought_place files.now self.now by from }
    {
        let end = self.end(files);
        let base = match from {
            0 => 0,
            1 => self.place.min(end),
            _ => end,
        };
        away(end, base, by)
    }
}

/// A signed distance from a place, held between 0 and the end.
fn away(end: u32, base: u32, by: u32) -> u32
    ensures { result ≡ position.away end base by }
{
    if by < 0x8000_0000 {
        base.saturating_add(by).min(end)
    } else {
        base.saturating_sub(by.wrapping_neg()).min(end)
    }
}

impl Streams {
    /// A stream's position, in characters or, in UTF-8, in bytes; a window's is its write count.
    /// BadObject where the stream isn't live.
    pub fn position(&self, stream: u32) -> Result<u32, StreamStop>
        ensures value { AnswersOfStreams (position.position self.now stream) result }
        ensures refusal { TakesNoMemory result }
    {
        match find(&self.streams, stream) {
            None => Err(StreamStop::BadObject),
            Some(at) => Ok(self.streams[at].position(&self.files)),
        }
    }

    /// Moves a stream by a signed distance from its start (0), its position (1) or its end (2),
    /// held between the start and the end. BadObject where the stream isn't live; BadArgument
    /// where `from` is another number. A window's stream stays as it is.
    pub fn seek(&mut self, stream: u32, place: u32, from: u32) -> Result<(), StreamStop>
        ensures value { LeavesStreams (position.position_sought self.old stream place from)
            self.new result }
        ensures err { OnErr result (self.new ≡ self.old) }
        ensures refusal { TakesNoMemory result }
    {
        match find(&self.streams, stream) {
            None => Err(StreamStop::BadObject),
            Some(at) => {
                let is_window = self.streams[at].target.is_window();
                if from > 2 {
                    return Err(StreamStop::BadArgument);
                }
                if !is_window {
                    let place = self.streams[at].sought(&self.files, place, from);
                    self.streams[at].place = place;
                }
                Ok(())
            }
        }
    }
}
