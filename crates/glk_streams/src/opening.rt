//! Opening and closing of streams (Glk 0.7.5, "Streams").

ghost use Rattle.std.specs.Prelude.{◌≡◌, ◌≤◌, IfOk, OnErr};
ghost use Rattle.glk_streams.specs.Answer.{GivesWithStreams, TakesNoMemory, Yields};
ghost use Rattle.glk_streams.specs.Opening as opening;

use crate::fault::StreamStop;
use crate::file::{File, empty_file, has_file, may_stand};
use crate::find::{find, stream_of_window};
use crate::stream::{MAX_STREAMS, Stream, Target};
use crate::streams::Streams;
use glk_numbers::MAX_NUMBER;
use std::alloc::{AllocError, Global};
use story_text::Text;

/// The characters that were read from a stream and written to it, modulo 2^32.
#[derive(Clone, Copy, Debug, PartialEq, Eq)]
pub struct Counts {
    pub read: u32,
    pub written: u32,
}

/// How many streams there are besides those of windows.
#[tactic(auto, unfolding(crate::specs::Opening::count_of))]
pub(crate) fn count_of(streams: &[Stream]) -> usize
    ensures value { result ≡ opening.count_of streams.now }
{
    let mut count = 0;
    for stream in streams {
        if !stream.target.is_window() {
            count += 1;
        }
    }
    count
}

impl Streams {
    /// Whether no stream more may be opened besides those of windows.
    fn is_full(&self) -> bool
        ensures { result ≡ opening.are_streams_full self.now }
    {
        self.next > MAX_NUMBER || count_of(&self.streams) >= MAX_STREAMS
    }

    /// A stream more, with the next number.
    fn add(&mut self, stream: Stream) -> Result<u32, AllocError>
        requires { self.old.next ≤ 4294967294 }
        ensures ok { IfOk result
            (λ n. Yields (opening.added_with_number self.old stream) self.new n) }
        ensures err { OnErr result (self.new ≡ self.old) }
    {
        self.streams.push(stream)?;
        let number = self.next;
        self.next += 1;
        Ok(number)
    }

    /// A window's stream; 0 where no number is left.
    pub fn open_window(&mut self, alloc: Global, win: u32) -> Result<u32, AllocError>
        ensures ok { IfOk result (λ n. Yields (opening.opened_window self.old win) self.new n) }
        ensures err { OnErr result (self.new ≡ self.old) }
    {
        if self.next > MAX_NUMBER {
            return Ok(0);
        }
        self.add(fresh(self.next, 0, 1, false, Target::Window(win)))
    }

    /// A stream on the file of a reference; mode 1 empties the file, and 1, 3 and 5 make it where
    /// it isn't there. 0 where mode 2 finds no file, and at the limits of streams and files.
    /// BadObject where the reference isn't live; BadArgument where the mode is none of 1, 2, 3
    /// and 5.
    pub fn open_file(
        &mut self,
        alloc: Global,
        fref: u32,
        mode: u32,
        rock: u32,
        unicode: bool,
    ) -> Result<u32, StreamStop>
        ensures value { GivesWithStreams
            (opening.opened_file self.old fref mode rock unicode) self.new result }
        ensures err { OnErr result (self.new ≡ self.old) }
    {
        match find(&self.refs, fref) {
            None => Err(StreamStop::BadObject),
            Some(at) => {
                let usage = self.refs[at].usage;
                if !matches!(mode, 1 | 2 | 3 | 5) {
                    return Err(StreamStop::BadArgument);
                }
                let name = self.refs[at].name.copy_of(alloc)?;
                if self.is_full() || !can_open(&self.files, usage, &name, mode) {
                    return Ok(0);
                }
                Ok(self.open_named(alloc, usage, name, mode, rock, unicode)?)
            }
        }
    }

    /// A stream on a file, which is made ready for it.
    fn open_named(
        &mut self,
        alloc: Global,
        usage: u32,
        name: Text,
        mode: u32,
        rock: u32,
        unicode: bool,
    ) -> Result<u32, AllocError>
        requires { self.old.next ≤ 4294967294 }
        ensures ok { IfOk result (λ n.
            Yields (opening.opened_name self.old usage name mode rock unicode) self.new n) }
        ensures err { OnErr result (self.new ≡ self.old) }
    {
        let copy = name.copy_of(alloc)?;
        let stream = fresh(self.next, rock, mode, unicode, Target::File { usage, name });
        let place = if mode == 5 {
            stream.end(&self.files)
        } else {
            0
        };
        let number = self.add(Stream { place, ..stream })?;
        if mode == 1 || !has_file(&self.files, usage, &copy) {
            if let Err(e) = empty_file(&mut self.files, alloc, usage, &copy) {
                self.streams.pop();
                self.next = number;
                return Err(e);
            }
        }
        Ok(number)
    }

    /// A stream on a buffer of so many characters; 0 at the limit. BadArgument where the mode is
    /// none of 1, 2 and 3.
    pub fn open_memory(
        &mut self,
        alloc: Global,
        buf: u32,
        len: u32,
        mode: u32,
        rock: u32,
        unicode: bool,
    ) -> Result<u32, StreamStop>
        ensures value { GivesWithStreams
            (opening.opened_memory self.old buf len mode rock unicode) self.new result }
        ensures err { OnErr result (self.new ≡ self.old) }
    {
        if !matches!(mode, 1 | 2 | 3) {
            return Err(StreamStop::BadArgument);
        }
        if self.is_full() {
            return Ok(0);
        }
        let target = Target::Memory { buf, len };
        Ok(self.add(fresh(self.next, rock, mode, unicode, target))?)
    }

    /// Closes a stream and gives its counts. BadObject where the number isn't live; BadArgument
    /// where the stream is a window's.
    pub fn close(&mut self, stream: u32) -> Result<Counts, StreamStop>
        ensures value { GivesWithStreams (opening.closed_stream self.old stream) self.new result }
        ensures err { OnErr result (self.new ≡ self.old) }
        ensures refusal { TakesNoMemory result }
    {
        match find(&self.streams, stream) {
            None => Err(StreamStop::BadObject),
            Some(at) => {
                if self.streams[at].target.is_window() {
                    return Err(StreamStop::BadArgument);
                }
                Ok(self.take(stream))
            }
        }
    }

    /// Closes a window's stream and gives its counts, 0 and 0 where it has none.
    pub fn close_window(&mut self, win: u32) -> Counts
        ensures { Yields (opening.closed_window self.old win) self.new result }
    {
        let stream = stream_of_window(&self.streams, win);
        self.take(stream)
    }

    /// Drops a stream, which is no longer the current one, and gives its counts.
    fn take(&mut self, stream: u32) -> Counts
        ensures { Yields (opening.stream_taken self.old stream) self.new result }
    {
        if self.current == stream {
            self.current = 0;
        }
        match find(&self.streams, stream) {
            None => Counts {
                read: 0,
                written: 0,
            },
            Some(at) => {
                let closed = self.streams.remove(at);
                Counts {
                    read: closed.read,
                    written: closed.written,
                }
            }
        }
    }
}

/// Whether a file can be opened in this mode.
fn can_open(files: &[File], usage: u32, name: &Text, mode: u32) -> bool
    ensures { result ≡ opening.can_open files.now usage name.now mode }
{
    if mode == 2 {
        has_file(files, usage, name)
    } else {
        may_stand(files, usage, name)
    }
}

/// A stream as it is opened.
fn fresh(number: u32, rock: u32, mode: u32, unicode: bool, target: Target) -> Stream
    ensures { result ≡ opening.fresh_stream number rock mode unicode target 0 }
{
    Stream {
        number,
        rock,
        mode,
        style: 0,
        read: 0,
        written: 0,
        place: 0,
        unicode,
        target,
    }
}
