//! Inputs (Glk 0.7.5, "Events").

ghost use Rattle.std.specs.Prelude.{◌≡◌, IfOk};

use crate::text::Text;
use std::alloc::{AllocError, Global};

/// What a player gives a story that waits.
#[derive(Debug, Drop)]
pub enum Input {
    /// A line for the window `win`, ended by the key `key`: a keycode, or 0 for the return key.
    Line { win: u32, text: Text, key: u32 },
    /// A character for the window `win`: a Unicode scalar value or a keycode.
    Char { win: u32, code: u32 },
    /// The name of the file that a prompt asks for; the empty name cancels.
    File { name: Text },
    /// The screen of the player has this many columns and rows from now on.
    Size { cols: u8, rows: u8 },
}

impl Input {
    /// An equal input; an error where memory runs out.
    pub fn copy_of(&self, alloc: Global) -> Result<Input, AllocError>
        ensures { IfOk result (λ input. input ≡ self.now) }
    {
        Ok(match self {
            Input::Line { win, text, key } => Input::Line {
                win: *win,
                text: text.copy_of(alloc)?,
                key: *key,
            },
            Input::Char { win, code } => Input::Char {
                win: *win,
                code: *code,
            },
            Input::File { name } => Input::File {
                name: name.copy_of(alloc)?,
            },
            Input::Size { cols, rows } => Input::Size {
                cols: *cols,
                rows: *rows,
            },
        })
    }
}
