//! Requests (own).

use crate::key::Key;
use story_text::Text;

/// What a client asks of a session: `s` is its number, `key` its key, and `n` the number of a
/// command, counted from 1 since the session was opened.
#[derive(Debug, Drop)]
pub enum Request {
    /// `OPEN s key story seed cols rows`; the budget is in ticks.
    Open {
        s: u32,
        key: Key,
        story: u32,
        seed: u64,
        cols: u8,
        rows: u8,
        budget: u64,
    },
    /// `LINE s key n win =text` or `LINE s key n win =text code`, with terminator 0 where no code
    /// is named.
    Line {
        s: u32,
        key: Key,
        n: u32,
        win: u32,
        text: Text,
        term: u32,
    },
    /// `CHAR s key n win code`.
    Char {
        s: u32,
        key: Key,
        n: u32,
        win: u32,
        code: u32,
    },
    /// `FILE s key n =name`; an empty name cancels.
    File {
        s: u32,
        key: Key,
        n: u32,
        name: Text,
    },
    /// `SIZE s key n cols rows`, where the player's screen has changed.
    Size {
        s: u32,
        key: Key,
        n: u32,
        cols: u8,
        rows: u8,
    },
    /// `LAST s key`.
    Last {
        s: u32,
        key: Key,
    },
    /// `CLOSE s key n`.
    Close {
        s: u32,
        key: Key,
        n: u32,
    },
    /// `WATCH s word from`: a spectator asks for the shows from this number on. The word has 16
    /// hexadecimal digits in lower case.
    Watch {
        s: u32,
        word: [u8; 16],
        from: u32,
    },
}
