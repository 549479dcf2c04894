//! The delivery of an input (Glk 0.7.5, "Line Input Events", "Character Input Events",
//! "Window Arrangement Events").

ghost use Rattle.std.specs.Prelude.{◌≡◌, [], IsOk, OnErr, take, true};
ghost use Rattle.std.specs.Str.{chars};
ghost use Rattle.vm_memory.specs.Access.{LeavesMemory, written};
ghost use Rattle.glk_input.specs.Delivery as delivery;
ghost use Rattle.glk_input.specs.Request as request;

use crate::event::Event;
use crate::request::{LineRequest, Request, take_code, take_key};
use crate::requests::{Change, Requests};
use story_text::{Input, Text};
use vm_memory::{MemStop, Memory};

impl Requests {
    /// Whether the input is what its window asks for: a line ended by the return key or by one of
    /// the request's own terminators, or a character. Never a file's name, and each size of the
    /// screen.
    pub fn wants(&self, input: &Input) -> bool
        ensures { result ≡ delivery.wants self.now input.now }
    {
        match input {
            Input::Line { win, key, .. } => self.wants_line(*win, *key),
            Input::Char { win, .. } => self.wants_char(*win),
            Input::File { .. } => false,
            Input::Size { .. } => true,
        }
    }

    fn wants_line(&self, win: u32, key: u32) -> bool
        ensures { result ≡ delivery.wants_line (request.window_request self.now win) key }
    {
        match self.request(win) {
            Some(Request::Line(line)) => key == 0 || line.keys.has(key),
            Some(Request::Char { .. }) | None => false,
        }
    }

    fn wants_char(&self, win: u32) -> bool
        ensures { result ≡ delivery.wants_char (request.window_request self.now win) }
    {
        match self.request(win) {
            Some(Request::Char { .. }) => true,
            Some(Request::Line(_)) | None => false,
        }
    }

    /// Delivers an input that is wanted: the request is over, then a line's characters go to its
    /// array, and the event tells what came. The refusal is that of a write to memory; what the
    /// work had reached stands: the request is over, and memory has a first part of the line. A
    /// character is always delivered, and so is a line of which nothing is written. A size of the
    /// screen is too, and ends no request.
    pub fn deliver(&mut self, memory: &mut Memory, input: &Input) -> Result<Event, MemStop>
        requires { delivery.wants self.old input.now ≡ true }
        ensures value { delivery.Delivers (delivery.delivered self.old memory.old input.now)
            memory.new result }
        ensures over { self.new ≡ delivery.requests_after_input self.old input.now }
        ensures part { OnErr result
            (delivery.LeavesPart self.old memory.old input.now memory.new) }
        ensures always { delivery.to_write self.old input.now ≡ [] → IsOk result }
    {
        match input {
            Input::Line { win, text, key } => self.deliver_line(memory, *win, text, *key),
            Input::Char { win, code } => Ok(self.deliver_char(*win, *code)),
            Input::File { .. } => Ok(Event::none()),
            Input::Size { .. } => Ok(Event::arrange()),
        }
    }

    fn deliver_line(
        &mut self,
        memory: &mut Memory,
        win: u32,
        text: &Text,
        key: u32,
    ) -> Result<Event, MemStop>
        ensures value { delivery.Delivers (delivery.line_delivered
            (request.window_request self.old win) memory.old win text.now key) memory.new result }
        ensures over { self.new ≡ request.window_input_changed request.request_ended self.old win }
        ensures part { OnErr result (delivery.LeavesLinePart
            (request.window_request self.old win) memory.old text.now memory.new) }
        ensures always { delivery.line_front (request.window_request self.old win) text.now ≡ []
            → IsOk result }
    {
        let asked = self.request(win);
        self.change(win, Change::End);
        match asked {
            Some(Request::Line(line)) => take_line(memory, &line, win, text, key),
            Some(Request::Char { .. }) | None => Ok(Event::none()),
        }
    }

    fn deliver_char(&mut self, win: u32, code: u32) -> Event
        ensures value { result ≡ delivery.char_delivered
            (request.window_request self.old win) win code }
        ensures over { self.new ≡ request.window_input_changed request.request_ended self.old win }
    {
        let asked = self.request(win);
        self.change(win, Change::End);
        match asked {
            Some(Request::Char { unicode }) => Event::char(win, take_key(unicode, code)),
            Some(Request::Line(_)) | None => Event::none(),
        }
    }
}

// The line goes to the request's array.
fn take_line(
    memory: &mut Memory,
    line: &LineRequest,
    win: u32,
    text: &Text,
    key: u32,
) -> Result<Event, MemStop>
    ensures value { delivery.Delivers (delivery.line_taken line.now memory.old win text.now key)
        memory.new result }
    ensures part { OnErr result (delivery.WritesPart line.now.unicode memory.old line.now.buf
        (take line.now.max text.now) memory.new) }
    ensures always { take line.now.max text.now ≡ [] → IsOk result }
{
    let count = write_front(memory, line.buf, line.unicode, text.as_str(), line.max)?;
    Ok(Event::line(win, count, key))
}

fn width(unicode: bool) -> u32
    ensures { result ≡ delivery.width unicode }
{
    if unicode { 4 } else { 1 }
}

fn write_char(memory: &mut Memory, at: u32, unicode: bool, c: char) -> Result<(), MemStop>
    ensures value { LeavesMemory
        (written (delivery.width unicode) memory.old at (delivery.code_taken unicode c))
        memory.new result }
    ensures err { OnErr result (memory.new ≡ memory.old) }
{
    let code = u32::from(c);
    if unicode {
        memory.write4(at, code)
    } else {
        memory.write1(at, take_code(unicode, code))
    }
}

// Writes at most so many characters from an address on, and answers how many there were.
fn write_front(
    memory: &mut Memory,
    from: u32,
    unicode: bool,
    text: &str,
    max: u32,
) -> Result<u32, MemStop>
    ensures value { delivery.WritesCharacters unicode memory.old from
        (take max (chars text.now)) memory.new result }
    ensures part { OnErr result (delivery.WritesPart unicode memory.old from
        (take max (chars text.now)) memory.new) }
    ensures always { take max (chars text.now) ≡ [] → IsOk result }
{
    let mut at = from;
    let mut count = 0;
    for c in text.chars() {
        if count == max {
            return Ok(count);
        }
        match write_char(memory, at, unicode, c) {
            Ok(()) => {}
            Err(stop) => return Err(stop),
        }
        at = at.wrapping_add(width(unicode));
        count += 1;
    }
    Ok(count)
}
