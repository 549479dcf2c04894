//! A Glk state made again from what is kept of it (own).

ghost use Rattle.std.specs.Prelude.{◌≡◌, ◌↔◌, IfNone, IfSome, IsTrue};
ghost use Rattle.glk_windows.specs.Areas.{HaveAreas};
ghost use Rattle.glk_windows.specs.Valid as windows;
ghost use Rattle.glk_dispatch.specs.Fields as fields;
ghost use Rattle.glk_dispatch.specs.Fields.{glk_with};
ghost use Rattle.glk_dispatch.specs.Links.{is_plain_stream};
ghost use Rattle.glk_dispatch.specs.Valid.{AreValid, IsValidGlk, WaitsFor};

use crate::called::Called;
use crate::events::may_ask;
use crate::glk::{Glk, NO_PROMPT, Prompt};
use crate::output::echo_from;
use glk_input::{Requests, WindowInput};
use glk_numbers::is_live;
use glk_streams::{Stream, Streams, Target};
use glk_windows::{Window, Windows};

/// Whether a window's stream stands as such a stream does: written, at place 0, not in Unicode.
fn is_plain(stream: &Stream) -> bool
    ensures { result ≡ is_plain_stream stream.now }
{
    !stream.target.is_window() || stream.mode == 1 && stream.place == 0 && !stream.unicode
}

/// Whether from a stream on the echoes come to an end: none is longer than the windows and a last
/// stream.
#[tactic(auto, unfolding(crate::specs::Links::echoes_end))]
fn comes_to_an_end(glk: &Glk, stream: u32) -> bool
    ensures { result ≡ fields.comes_to_an_end glk.now stream }
{
    let mut at = stream;
    let mut left = glk.windows.slots().len() + 1;
    while left > 0 && at != 0 {
        at = echo_from(glk, at);
        left -= 1;
    }
    at == 0
}

/// Whether the stream is this window's.
fn is_owned(glk: &Glk, win: u32, stream: u32) -> bool
    ensures { result ≡ fields.is_owned glk.now win stream }
{
    match glk.streams.stream(stream) {
        None => false,
        Some(stream) => stream.target.is_of_window(win),
    }
}

/// Whether a live window has this stream.
fn is_named(glk: &Glk, win: u32, stream: u32) -> bool
    ensures { result ≡ fields.has_stream glk.now win stream }
{
    glk.windows.is_live(win) && glk.windows.stream(win) == stream
}

fn is_named_by(glk: &Glk, stream: u32, target: &Target) -> bool
    ensures { result ≡ fields.is_named_by glk.now stream target.now }
{
    match target {
        Target::Window(win) => is_named(glk, *win, stream),
        Target::Memory { .. } | Target::File { .. } => true,
    }
}

fn window_fits(glk: &Glk, window: &Window) -> bool
    ensures { result ≡ fields.window_fits glk.now window.now }
{
    is_owned(glk, window.number, window.stream)
        && glk.is_stream_or_none(window.echo)
        && is_live(glk.requests.windows(), window.number)
}

fn stream_fits(glk: &Glk, stream: &Stream) -> bool
    ensures { result ≡ fields.stream_fits glk.now stream.now }
{
    is_named_by(glk, stream.number, &stream.target)
        && is_plain(stream)
        && comes_to_an_end(glk, stream.number)
}

fn entry_fits(glk: &Glk, entry: &WindowInput) -> bool
    ensures { result ≡ fields.entry_fits glk.now entry.now }
{
    glk.is_window(entry.win) && (entry.request.is_none() || may_ask(glk, entry.win))
}

fn windows_fit(glk: &Glk) -> bool
    ensures { result ≡ fields.windows_fit glk.now }
{
    for window in glk.windows.slots() {
        if !window_fits(glk, window) {
            return false;
        }
    }
    true
}

fn streams_fit(glk: &Glk) -> bool
    ensures { result ≡ fields.streams_fit glk.now }
{
    for stream in glk.streams.streams() {
        if !stream_fits(glk, stream) {
            return false;
        }
    }
    true
}

fn entries_fit(glk: &Glk) -> bool
    ensures { result ≡ fields.entries_fit glk.now }
{
    for entry in glk.requests.windows() {
        if !entry_fits(glk, entry) {
            return false;
        }
    }
    true
}

impl Glk {
    /// Whether the parts fit together: windows with their streams, their echoes and their entries
    /// for input.
    fn parts_fit(&self) -> bool
        ensures { result ≡ fields.parts_fit self.now }
    {
        windows_fit(self) && streams_fit(self) && entries_fit(self)
    }

    /// Whether windows, streams and requests are each such as a session may have.
    fn are_valid(&self) -> bool
        ensures { IsTrue result ↔ AreValid self.now }
    {
        self.windows.is_valid() && self.streams.is_valid() && self.requests.is_valid()
    }

    /// Whether its valid windows have their rectangles of the screen.
    fn have_areas(&self) -> bool
        requires { windows.IsValidTree self.now.windows }
        ensures { IsTrue result ↔ HaveAreas self.now.windows self.now.cols self.now.rows }
    {
        self.windows
            .have_areas(u32::from(self.cols), u32::from(self.rows))
    }

    /// Whether a session may have it.
    pub fn is_valid(&self) -> bool
        ensures { IsTrue result ↔ IsValidGlk self.now }
    {
        self.are_valid() && self.parts_fit() && self.have_areas()
    }

    /// The Glk state with these fields, between two turns. None where no session may have it.
    pub fn of_fields(
        cols: u8,
        rows: u8,
        windows: Windows,
        streams: Streams,
        requests: Requests,
        event: u32,
        prompt: Prompt,
    ) -> Option<Glk>
        ensures found { IfSome result (λ g.
            (g ≡ glk_with cols rows windows streams requests event prompt) × IsValidGlk g) }
        ensures only { IfNone result
            (¬ IsValidGlk (glk_with cols rows windows streams requests event prompt)) }
    {
        let glk = Glk {
            windows,
            streams,
            requests,
            cols,
            rows,
            chars: 0,
            printed: 0,
            event,
            prompt,
        };
        if glk.is_valid() { Some(glk) } else { None }
    }

    /// Whether it waits with what this answer says, and with nothing else.
    pub fn waits_for(&self, answer: Called) -> bool
        ensures { IsTrue result ↔ WaitsFor answer self.now }
    {
        let no_event = self.event == 0;
        let no_prompt = self.prompt == NO_PROMPT;
        match answer {
            Called::Value(_) | Called::Exit => no_event && no_prompt,
            Called::Wait => no_prompt,
            Called::Prompt => no_event,
        }
    }
}
