//! The streams, file references and files of a session: what they are, and what they tell.

ghost use Rattle.std.specs.Prelude.{◌≡◌};
ghost use Rattle.glk_numbers.specs.Numbered.{number_above, has};
ghost use Rattle.glk_streams.specs.Streams.{no_streams, stream_number, ref_number_of};

use crate::file::File;
use crate::fileref::FileRef;
use crate::stream::Stream;
use glk_numbers::{is_live, next_above};
use std::alloc::Global;
use std::marker::Model;

/// The streams, file references and files of a session.
#[derive(Drop)]
pub struct Streams {
    pub(crate) streams: Vec<Stream>,
    pub(crate) next: u32,
    pub(crate) current: u32,
    pub(crate) refs: Vec<FileRef>,
    pub(crate) next_ref: u32,
    pub(crate) files: Vec<File>,
}

impl Model for Streams {
    ghost use Rattle.glk_streams.specs.Streams.{StreamTable};

    ghost Value = { StreamTable };

    ghost view = { λ s. record {
      streams = s.streams.items;
      next = s.next;
      current = s.current;
      refs = s.refs.items;
      next_ref = s.next_ref;
      files = s.files.items;
    } };
}

impl Streams {
    /// Nothing is open. It takes no memory.
    pub fn new(alloc: Global) -> Streams
        ensures { result ≡ no_streams }
    {
        Streams {
            streams: Vec::new(alloc),
            next: 1,
            current: 0,
            refs: Vec::new(alloc),
            next_ref: 1,
            files: Vec::new(alloc),
        }
    }

    /// Whether a stream with this number is open.
    pub fn is_live(&self, stream: u32) -> bool
        ensures { result ≡ has stream_number self.now.streams stream }
    {
        is_live(&self.streams, stream)
    }

    /// Whether a file reference with this number is live.
    pub fn is_ref(&self, fref: u32) -> bool
        ensures { result ≡ has ref_number_of self.now.refs fref }
    {
        is_live(&self.refs, fref)
    }

    /// The next open stream above this number, or 0.
    pub fn stream_after(&self, number: u32) -> u32
        ensures { result ≡ number_above stream_number self.now.streams number }
    {
        next_above(&self.streams, number)
    }

    /// The next live file reference above this number, or 0.
    pub fn ref_after(&self, number: u32) -> u32
        ensures { result ≡ number_above ref_number_of self.now.refs number }
    {
        next_above(&self.refs, number)
    }

    /// The current stream, or 0.
    pub fn current(&self) -> u32
        ensures { result ≡ self.now.current }
    {
        self.current
    }

    /// The number of the next stream.
    pub fn next(&self) -> u32
        ensures { result ≡ self.now.next }
    {
        self.next
    }

    /// The number of the next file reference.
    pub fn next_ref(&self) -> u32
        ensures { result ≡ self.now.next_ref }
    {
        self.next_ref
    }

    /// The streams by number.
    pub fn streams(&self) -> &[Stream]
        ensures { result.now ≡ self.now.streams }
    {
        &self.streams
    }

    /// The file references by number.
    pub fn refs(&self) -> &[FileRef]
        ensures { result.now ≡ self.now.refs }
    {
        &self.refs
    }

    /// The files by usage and name.
    pub fn files(&self) -> &[File]
        ensures { result.now ≡ self.now.files }
    {
        &self.files
    }
}
