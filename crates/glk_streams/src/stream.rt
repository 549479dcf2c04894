//! A stream, and where its characters go (Glk 0.7.5, "Streams").

ghost use Rattle.std.specs.Prelude.{◌≡◌};
ghost use Rattle.glk_streams.specs.Coding.{coding_of};
ghost use Rattle.glk_streams.specs.Streams.{is_file_target, is_memory, is_of_window, is_read_mode};
ghost use Rattle.glk_streams.specs.Streams.{is_window_target, is_write_mode, window_in};

use crate::coding::Coding;
use glk_numbers::Numbered;
use story_text::Text;

/// How many streams may be open at once besides those of windows.
pub const MAX_STREAMS: usize = 64;

/// A stream. Its counts are of characters, modulo 2^32; its place counts characters, in UTF-8
/// bytes, and may be past the end, for which the end is then taken.
#[derive(Debug, Drop)]
pub struct Stream {
    pub number: u32,
    pub rock: u32,
    /// 1 to write, 2 to read, 3 for both, 5 to append.
    pub mode: u32,
    pub style: u32,
    pub read: u32,
    pub written: u32,
    pub place: u32,
    pub unicode: bool,
    pub target: Target,
}

/// Where a stream's characters go: to a window by its number; to a buffer by its address, 0 for
/// none, and its length in characters; or to the file with this usage and name.
#[derive(Debug, Drop)]
pub enum Target {
    Window(u32),
    Memory { buf: u32, len: u32 },
    File { usage: u32, name: Text },
}

impl Numbered for Stream {
    ghost number_of = { λ stream. stream.number };

    fn number(&self) -> u32 {
        self.number
    }
}

impl Target {
    pub fn is_window(&self) -> bool
        ensures { result ≡ is_window_target self.now }
    {
        match self {
            Target::Window(_) => true,
            Target::Memory { .. } => false,
            Target::File { .. } => false,
        }
    }

    pub fn is_memory(&self) -> bool
        ensures { result ≡ is_memory self.now }
    {
        match self {
            Target::Window(_) => false,
            Target::Memory { .. } => true,
            Target::File { .. } => false,
        }
    }

    pub fn is_file(&self) -> bool
        ensures { result ≡ is_file_target self.now }
    {
        match self {
            Target::Window(_) => false,
            Target::Memory { .. } => false,
            Target::File { .. } => true,
        }
    }

    /// Whether it is this window.
    pub fn is_of_window(&self, win: u32) -> bool
        ensures { result ≡ is_of_window win self.now }
    {
        match self {
            Target::Window(window) => *window == win,
            Target::Memory { .. } => false,
            Target::File { .. } => false,
        }
    }

    /// The window, or 0.
    pub fn window(&self) -> u32
        ensures { result ≡ window_in self.now }
    {
        match self {
            Target::Window(window) => *window,
            Target::Memory { .. } => 0,
            Target::File { .. } => 0,
        }
    }
}

impl Stream {
    /// How the stream keeps characters as bytes.
    pub fn coding(&self) -> Coding
        ensures { result ≡ coding_of self.now.unicode self.now.target }
    {
        Coding::of(self.unicode, &self.target)
    }

    /// Whether its mode lets it be read.
    pub fn is_readable(&self) -> bool
        ensures { result ≡ is_read_mode self.now.mode }
    {
        matches!(self.mode, 2 | 3)
    }

    /// Whether its mode lets it be written.
    pub fn is_writable(&self) -> bool
        ensures { result ≡ is_write_mode self.now.mode }
    {
        matches!(self.mode, 1 | 3 | 5)
    }
}
