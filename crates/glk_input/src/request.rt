//! What a window asks for (Glk 0.7.5, "Line Input Events", "Character Input Events").

ghost use Rattle.std.specs.Prelude.{◌≡◌, IfOk, map, take};
ghost use Rattle.std.specs.Str.{chars};
ghost use Rattle.glk_input.specs.Delivery as delivery;
ghost use Rattle.glk_input.specs.Request as request;

use crate::keys::Keys;
use glk_numbers::Numbered;
use std::alloc::{AllocError, Global};
use story_text::Text;
use story_text::keycode::{RETURN, is_keycode};

const NEWLINE: u32 = 10;

/// A line: the address of its array, the most characters that it takes, and how many stand in the
/// array to begin with. The array has bytes, or words for Unicode. `echo` and `keys` are the
/// window's settings at the moment of the request.
#[derive(Drop)]
pub struct LineRequest {
    pub buf: u32,
    pub max: u32,
    pub init: u32,
    pub unicode: bool,
    pub echo: bool,
    pub keys: Keys,
}

/// A line or a character.
#[derive(Drop)]
pub enum Request {
    Line(LineRequest),
    Char { unicode: bool },
}

/// What is kept for a window: the echo and the terminators of its later lines, and its request.
#[derive(Drop)]
pub struct WindowInput {
    pub win: u32,
    pub echo: bool,
    pub keys: Keys,
    pub request: Option<Request>,
}

impl Numbered for WindowInput {
    ghost number_of = { λ w. w.win };

    fn number(&self) -> u32 {
        self.win
    }
}

impl WindowInput {
    /// A window without a request.
    pub(crate) fn fresh(win: u32) -> WindowInput
        ensures { result ≡ request.window_without_request win }
    {
        WindowInput {
            win,
            echo: true,
            keys: Keys::of(&[]),
            request: None,
        }
    }

    /// What the window asks for.
    pub(crate) fn copy_of_request(&self) -> Option<Request>
        ensures { result ≡ self.now.request }
    {
        match &self.request {
            Some(request) => Some(request.copy_of()),
            None => None,
        }
    }
}

impl Request {
    /// An equal request.
    pub(crate) fn copy_of(&self) -> Request
        ensures { result ≡ self.now }
    {
        match self {
            Request::Line(line) => Request::Line(line.copy_of()),
            Request::Char { unicode } => Request::Char { unicode: *unicode },
        }
    }
}

impl LineRequest {
    fn copy_of(&self) -> LineRequest
        ensures { result ≡ self.now }
    {
        LineRequest {
            buf: self.buf,
            max: self.max,
            init: self.init,
            unicode: self.unicode,
            echo: self.echo,
            keys: self.keys.copy_of(),
        }
    }

    /// The characters of a line as the request takes them: cut to its maximum, and `?` in place of
    /// codes above 255 where it isn't for Unicode. An error where memory runs out.
    pub fn taken(&self, alloc: Global, text: &Text) -> Result<Vec<u32>, AllocError>
        ensures { IfOk result (λ line. line.items ≡ delivery.taken_line self.now text.now) }
    {
        front(alloc, text.as_str(), self.unicode, self.max as usize)
    }
}

fn front(alloc: Global, text: &str, unicode: bool, count: usize) -> Result<Vec<u32>, AllocError>
    ensures { IfOk result (λ line. line.items
        ≡ map (delivery.code_taken unicode) (take count (chars text.now))) }
{
    text.chars()
        .take(count)
        .map(|c| take_code(unicode, u32::from(c)))
        .collect(alloc)
}

/// A character as a request takes it.
pub(crate) fn take_code(unicode: bool, code: u32) -> u32
    ensures { result ≡ delivery.code_taken unicode code }
{
    if !unicode && code > 255 {
        u32::from('?')
    } else {
        code
    }
}

/// A character or keycode as a request takes it.
pub(crate) fn take_key(unicode: bool, code: u32) -> u32
    ensures { result ≡ delivery.taken_key unicode code }
{
    if code == NEWLINE {
        RETURN
    } else if is_keycode(code) {
        code
    } else {
        take_code(unicode, code)
    }
}
