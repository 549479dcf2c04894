//! Events (Glk 0.7.5, "Events").

ghost use Rattle.std.specs.Prelude.{◌≡◌};
ghost use Rattle.glk_input.specs.Request.{arrange_event, char_event, line_event, no_event};

/// What a story is told: the type, the window, and two values. Types are 0 for none, 2 for a
/// character, whose code is `val1`, 3 for a line, with its length in `val1` and in `val2` the
/// terminator that ended it, or 0, and 5 for windows that have new sizes, all of them, so that the
/// rest is 0.
#[derive(Clone, Copy, Debug, PartialEq, Eq)]
pub struct Event {
    pub kind: u32,
    pub win: u32,
    pub val1: u32,
    pub val2: u32,
}

const CHARACTER: u32 = 2;

const LINE: u32 = 3;

const ARRANGE: u32 = 5;

impl Event {
    /// Nothing happened.
    pub(crate) fn none() -> Event
        ensures { result ≡ no_event }
    {
        Event {
            kind: 0,
            win: 0,
            val1: 0,
            val2: 0,
        }
    }

    /// A line of so many characters came, ended by this key.
    pub(crate) fn line(win: u32, count: u32, key: u32) -> Event
        ensures { result ≡ line_event win count key }
    {
        Event {
            kind: LINE,
            win,
            val1: count,
            val2: key,
        }
    }

    /// A character came.
    pub(crate) fn char(win: u32, code: u32) -> Event
        ensures { result ≡ char_event win code }
    {
        Event {
            kind: CHARACTER,
            win,
            val1: code,
            val2: 0,
        }
    }

    /// The windows have new sizes.
    pub(crate) fn arrange() -> Event
        ensures { result ≡ arrange_event }
    {
        Event {
            kind: ARRANGE,
            win: 0,
            val1: 0,
            val2: 0,
        }
    }
}
