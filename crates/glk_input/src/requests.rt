//! The requests of all windows (Glk 0.7.5, "Line Input Events", "Character Input Events").

ghost use Rattle.std.specs.Prelude.{◌≡◌, ◌≤◌, ◌==◌, [], IfOk, OnErr, length, not};
ghost use Rattle.glk_input.specs.Delivery as delivery;
ghost use Rattle.glk_input.specs.Request as request;

use crate::event::Event;
use crate::keys::Keys;
use crate::request::{LineRequest, Request, WindowInput};
use glk_numbers::{is_live, place_of};
use std::alloc::{AllocError, Global};
use std::marker::Model;

/// At most one request per window, with each window's settings for later lines. Contracts see the
/// list of windows, their numbers ascending.
#[derive(Drop)]
pub struct Requests {
    pub(crate) windows: Vec<WindowInput>,
}

impl Model for Requests {
    ghost use Rattle.std.specs.Prelude.{List};
    ghost use Rattle.glk_input.specs.declared.request.WindowInput.{WindowInput};

    ghost Value = { List WindowInput };

    ghost view = { λ r. r.windows.items };
}

impl Requests {
    /// No window. Takes no memory.
    pub fn new(alloc: Global) -> Requests
        ensures { result ≡ [] }
    {
        Requests {
            windows: Vec::new(alloc),
        }
    }

    /// What is kept for each window, lent.
    pub fn windows(&self) -> &[WindowInput]
        ensures { result.now ≡ self.now }
    {
        self.windows.as_slice()
    }

    /// What the window asks for.
    pub fn request(&self, win: u32) -> Option<Request>
        ensures { result ≡ request.window_request self.now win }
    {
        request_at(&self.windows, win)
    }

    /// The next window above this number that asks for something, or 0.
    pub fn next_asking(&self, number: u32) -> u32
        ensures { result ≡ request.next_asking self.now number }
    {
        next_asking(&self.windows, number)
    }

    /// Begins a window: its lines will echo, and end by the return key alone. Nothing where it has
    /// begun. An error where memory runs out; then nothing changed.
    pub fn begin_window(&mut self, alloc: Global, win: u32) -> Result<(), AllocError>
        ensures ok { IfOk result (λ _. self.new ≡ request.with_window self.old win) }
        ensures err { OnErr result (self.new ≡ self.old) }
    {
        if is_live(&self.windows, win) {
            return Ok(());
        }
        let at = count_below(&self.windows, win);
        self.windows.insert(at, WindowInput::fresh(win))?;
        Ok(())
    }

    /// Asks for a line that begins with `init` characters, by the window's settings of now. Ignored
    /// where a request is there. An error where memory runs out, and none where the window has
    /// begun; then nothing changed.
    pub fn ask_line(
        &mut self,
        alloc: Global,
        win: u32,
        buf: u32,
        max: u32,
        init: u32,
        unicode: bool,
    ) -> Result<(), AllocError>
        requires within { init ≤ max }
        requires few { init ≤ 1024 }
        ensures ok { IfOk result (λ _. self.new
            ≡ request.window_input_changed (request.line_asked buf max init unicode)
            (request.with_window self.old win) win) }
        ensures err { OnErr result (self.new ≡ self.old) }
    {
        self.begin_window(alloc, win)?;
        self.change(
            win,
            Change::AskLine {
                buf,
                max,
                init,
                unicode,
            },
        );
        Ok(())
    }

    /// Asks for a character. Ignored where a request is there. An error where memory runs out;
    /// then nothing changed.
    pub fn ask_char(&mut self, alloc: Global, win: u32, unicode: bool) -> Result<(), AllocError>
        ensures ok { IfOk result (λ _. self.new
            ≡ request.window_input_changed (request.char_asked unicode)
            (request.with_window self.old win) win) }
        ensures err { OnErr result (self.new ≡ self.old) }
    {
        self.begin_window(alloc, win)?;
        self.change(win, Change::AskChar { unicode });
        Ok(())
    }

    /// Ends a request for a line: the event tells the line with which it began. An event of zeros
    /// where there is none.
    pub fn cancel_line(&mut self, win: u32) -> Event
        ensures value { result ≡ request.cancelled (request.window_request self.old win) win }
        ensures over { self.new ≡ request.window_input_changed request.without_line self.old win }
    {
        let event = match self.request(win) {
            Some(Request::Line(line)) => Event::line(win, line.init, 0),
            Some(Request::Char { .. }) | None => Event::none(),
        };
        self.change(win, Change::EndLine);
        event
    }

    /// Ends a request for a character.
    pub fn cancel_char(&mut self, win: u32)
        ensures { self.new ≡ request.window_input_changed request.without_char self.old win }
    {
        self.change(win, Change::EndChar)
    }

    /// Whether the window's later lines echo: not where the value is 0. Nothing for a window that
    /// hasn't begun.
    pub fn set_echo(&mut self, win: u32, val: u32)
        ensures { self.new
            ≡ request.window_input_changed (request.with_echo (not (val == 0))) self.old win }
    {
        self.change(win, Change::Echo(val != 0))
    }

    /// The keys that end the window's later lines. An error where memory runs out; then nothing
    /// changed.
    pub fn set_terminators(
        &mut self,
        alloc: Global,
        win: u32,
        keys: &[u32],
    ) -> Result<(), AllocError>
        requires { length keys.now ≤ 13 }
        ensures ok { IfOk result (λ _. self.new
            ≡ request.window_input_changed (request.with_keys keys.now)
            (request.with_window self.old win) win) }
        ensures err { OnErr result (self.new ≡ self.old) }
    {
        self.begin_window(alloc, win)?;
        self.change(win, Change::Terminators(Keys::of(keys)));
        Ok(())
    }

    /// Ends what is kept for a window.
    pub fn drop_window(&mut self, win: u32)
        ensures { self.new ≡ request.without_window self.old win }
    {
        self.windows.retain(|window| window.win != win);
    }

    // Changes a window.
    pub(crate) fn change(&mut self, win: u32, change: Change)
        ensures { self.new ≡ request.window_input_changed (request.changed_by change) self.old win }
    {
        change_at(&mut self.windows, win, change)
    }
}

/// A change of what is kept for a window.
#[derive(Drop)]
pub(crate) enum Change {
    AskLine {
        buf: u32,
        max: u32,
        init: u32,
        unicode: bool,
    },
    AskChar {
        unicode: bool,
    },
    EndLine,
    EndChar,
    End,
    Echo(bool),
    Terminators(Keys),
}

fn change_at(windows: &mut [WindowInput], win: u32, change: Change)
    ensures { windows.new
        ≡ request.window_input_changed (request.changed_by change) windows.old win }
{
    match place_of(windows, win) {
        None => {}
        Some(at) => apply(&mut windows[at], change),
    }
}

fn apply(window: &mut WindowInput, change: Change)
    ensures { window.new ≡ request.changed_by change window.old }
{
    match change {
        Change::AskLine {
            buf,
            max,
            init,
            unicode,
        } => {
            let line = LineRequest {
                buf,
                max,
                init,
                unicode,
                echo: window.echo,
                keys: window.keys.copy_of(),
            };
            ask(window, Request::Line(line))
        }
        Change::AskChar { unicode } => ask(window, Request::Char { unicode }),
        Change::EndLine => end_line(window),
        Change::EndChar => end_char(window),
        Change::End => window.request = None,
        Change::Echo(on) => window.echo = on,
        Change::Terminators(keys) => window.keys = keys,
    }
}

fn ask(window: &mut WindowInput, new: Request)
    ensures { window.new ≡ record window.old { request = request.asked window.old.request new } }
{
    if window.request.is_none() {
        window.request = Some(new);
    }
}

fn end_line(window: &mut WindowInput)
    ensures { window.new ≡ request.without_line window.old }
{
    if let Some(Request::Line(_)) = window.request {
        window.request = None;
    }
}

fn end_char(window: &mut WindowInput)
    ensures { window.new ≡ request.without_char window.old }
{
    if let Some(Request::Char { .. }) = window.request {
        window.request = None;
    }
}

// What the window asks for.
fn request_at(windows: &[WindowInput], win: u32) -> Option<Request>
    ensures { result ≡ request.window_request windows.now win }
{
    for window in windows {
        if window.win == win {
            return window.copy_of_request();
        }
    }
    None
}

// The next window above this number that asks for something, or 0.
#[tactic(auto, unfolding(crate::specs::Request::next_asking))]
fn next_asking(windows: &[WindowInput], number: u32) -> u32
    ensures { result ≡ request.next_asking windows.now number }
{
    for window in windows {
        if window.win > number && window.request.is_some() {
            return window.win;
        }
    }
    0
}

// How many windows at the front have lower numbers.
#[tactic(auto, unfolding(crate::specs::Request::count_below))]
fn count_below(windows: &[WindowInput], win: u32) -> usize
    ensures value { result ≡ request.count_below windows.now win }
    ensures within { result ≤ length windows.now }
{
    for (at, window) in windows.iter().enumerate() {
        if window.win >= win {
            return at;
        }
    }
    windows.len()
}
