//! The Glk state of a session (Glk 0.7.5, "Opaque Objects").

ghost use Rattle.std.specs.Prelude.{◌≡◌, ◌||◌, ◌==◌, IfOk};
ghost use Rattle.glk_dispatch.specs.Glk as state;
ghost use Rattle.glk_dispatch.specs.Valid.{IsReadyGlk};

use glk_input::Requests;
use glk_streams::Streams;
use glk_windows::Windows;
use std::alloc::{AllocError, Global};

/// What a prompt for a file's name waits with: the reference's usage, the mode in which the file is
/// to be opened, and the reference's rock. All are 0 where no prompt is waited with.
#[derive(Clone, Copy, Debug, PartialEq, Eq)]
pub struct Prompt {
    pub usage: u32,
    pub mode: u32,
    pub rock: u32,
}

/// Windows, streams and requests, the screen, the counts of this turn, and what a select or a
/// prompt waits with: 0 where none does. `chars` counts the characters that calls read or wrote in this turn,
/// `printed` those that windows showed.
#[derive(Drop)]
pub struct Glk {
    pub windows: Windows,
    pub streams: Streams,
    pub requests: Requests,
    pub(crate) cols: u8,
    pub(crate) rows: u8,
    pub(crate) chars: u64,
    pub(crate) printed: u32,
    pub(crate) event: u32,
    pub(crate) prompt: Prompt,
}

/// No prompt is waited with.
pub(crate) const NO_PROMPT: Prompt = Prompt {
    usage: 0,
    mode: 0,
    rock: 0,
};

impl Glk {
    /// A screen of so many columns and rows without a window. The error is want of memory.
    pub fn new(alloc: Global, cols: u8, rows: u8) -> Result<Glk, AllocError>
        ensures value { IfOk result (λ glk. glk ≡ state.empty_screen cols rows) }
        ensures valid { IfOk result (λ glk. IsReadyGlk glk) }
    {
        Ok(Glk {
            windows: Windows::new(alloc),
            streams: Streams::new(alloc),
            requests: Requests::new(alloc),
            cols,
            rows,
            chars: 0,
            printed: 0,
            event: 0,
            prompt: NO_PROMPT,
        })
    }

    /// How many characters calls read or wrote in this turn. The greatest number stays.
    pub fn chars(&self) -> u64
        ensures { result ≡ self.now.chars }
    {
        self.chars
    }

    /// The columns of the screen.
    pub fn cols(&self) -> u8
        ensures { result ≡ self.now.cols }
    {
        self.cols
    }

    /// The rows of the screen.
    pub fn rows(&self) -> u8
        ensures { result ≡ self.now.rows }
    {
        self.rows
    }

    /// The reference to which the event that `glk_select` waits for goes.
    pub fn event(&self) -> u32
        ensures { result ≡ self.now.event }
    {
        self.event
    }

    /// What a prompt waits with.
    pub fn prompt(&self) -> Prompt
        ensures { result ≡ self.now.prompt }
    {
        self.prompt
    }

    /// Begins a turn: its counts are 0, and what windows kept for the last show is forgotten.
    pub fn begin_turn(&mut self)
        ensures { self.new ≡ state.turn_begun self.old }
    {
        self.windows.begin_turn();
        self.chars = 0;
        self.printed = 0;
    }

    /// Sets back what a select or a prompt waited with.
    pub fn rest(&mut self)
        ensures { self.new ≡ state.wait_set_back self.old }
    {
        self.event = 0;
        self.prompt = NO_PROMPT;
    }

    /// Counts a character that a call reads or writes.
    pub(crate) fn charge(&mut self)
        ensures { self.new ≡ state.character_charged self.old }
    {
        self.chars = self.chars.saturating_add(1);
    }

    /// Counts so many characters that a call reads or writes.
    pub(crate) fn charge_all(&mut self, count: u32)
        ensures { self.new ≡ state.characters_charged count self.old }
    {
        self.chars = self.chars.saturating_add(u64::from(count));
    }

    /// Whether a window has this number.
    pub(crate) fn is_window(&self, win: u32) -> bool
        ensures { result ≡ state.has_window self.now win }
    {
        self.windows.is_live(win)
    }

    pub(crate) fn is_window_or_none(&self, win: u32) -> bool
        ensures { result ≡ (win == 0 || state.has_window self.now win) }
    {
        win == 0 || self.windows.is_live(win)
    }

    /// Whether a stream has this number.
    pub(crate) fn is_stream(&self, stream: u32) -> bool
        ensures { result ≡ state.is_stream self.now stream }
    {
        self.streams.is_live(stream)
    }

    pub(crate) fn is_stream_or_none(&self, stream: u32) -> bool
        ensures { result ≡ (stream == 0 || state.is_stream self.now stream) }
    {
        stream == 0 || self.streams.is_live(stream)
    }

    /// Whether a file reference has this number.
    pub(crate) fn is_ref(&self, fref: u32) -> bool
        ensures { result ≡ state.is_ref self.now fref }
    {
        self.streams.is_ref(fref)
    }

    pub(crate) fn is_ref_or_none(&self, fref: u32) -> bool
        ensures { result ≡ (fref == 0 || state.is_ref self.now fref) }
    {
        fref == 0 || self.streams.is_ref(fref)
    }

    /// How many characters were written to a stream.
    pub(crate) fn written_to(&self, stream: u32) -> u32
        ensures { result ≡ state.written_to self.now stream }
    {
        match self.streams.stream(stream) {
            None => 0,
            Some(held) => held.written,
        }
    }
}
