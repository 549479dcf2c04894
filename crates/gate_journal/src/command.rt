//! Commands (own).

ghost use Rattle.std.specs.Prelude.{◌≡◌, ◌↔◌, ◌+◌, ◌≤◌, IfOk, IsTrue, length};
ghost use Rattle.story_text.specs.Text.{IsText};
ghost use Rattle.gate_journal.specs.Command.{IsCommand, HasDigest};
ghost use Rattle.gate_journal.specs.declared.command.Command.TheVariants as Command;
ghost use Rattle.gate_journal.specs.Rows.{is_open, is_close, command_kind, payload_of, IsInVersion};

use line_words::{Key, is_code, is_key, is_terminator};
use std::alloc::{AllocError, Global};
use story_text::Text;

/// What a session accepted: each is kept as a row of the journal.
#[derive(Debug, Drop)]
pub enum Command {
    /// The session was opened: the story's number, its SHA-256 digest as it was then, the seed of
    /// its random words, the screen in characters and the budget of a turn in ticks.
    Open {
        key: Key,
        story: u16,
        digest: [u8; 32],
        seed: u64,
        cols: u8,
        rows: u8,
        budget: u64,
    },
    /// A line for the window `win`, ended by the key `term`, or by the return key where that is 0.
    Line {
        win: u32,
        term: u32,
        text: Text,
    },
    /// A character for the window `win`: a Unicode scalar value or a keycode.
    Char {
        win: u32,
        code: u32,
    },
    /// The name of a file; the empty name cancels.
    File {
        name: Text,
    },
    /// The session was closed.
    Close,
    /// The screen is of this size from now on, in characters.
    Size {
        cols: u8,
        rows: u8,
    },
}

/// The greatest budget of a turn, in ticks.
const MAX_BUDGET: u64 = 1_000_000_000_000;

fn is_open_in_range(
    key: &Key,
    story: u16,
    digest: [u8; 32],
    seed: u64,
    cols: u8,
    rows: u8,
    budget: u64,
) -> bool
    ensures { IsTrue result
        ↔ IsCommand (Command.Open key.now story digest seed cols rows budget) }
{
    is_key(key.as_slice()) && cols > 0 && rows > 0 && budget > 0 && budget <= MAX_BUDGET
}

fn is_name(text: &Text) -> bool
    ensures { IsTrue result ↔ IsText text.now }
{
    let _ = text.as_utf8();
    text.is_short()
}

fn is_line_in_range(win: u32, term: u32, text: &Text) -> bool
    ensures { IsTrue result ↔ IsCommand (Command.Line win term text.now) }
{
    (term == 0 || is_terminator(term)) && is_name(text)
}

fn is_char_in_range(win: u32, code: u32) -> bool
    ensures { IsTrue result ↔ IsCommand (Command.Char win code) }
{
    is_code(code)
}

fn is_size_in_range(cols: u8, rows: u8) -> bool
    ensures { IsTrue result ↔ IsCommand (Command.Size cols rows) }
{
    cols > 0 && rows > 0
}

// Every digest has 32 bytes.
fn is_whole(_digest: [u8; 32])
    ensures { length _digest ≡ 32 }
{}

impl Command {
    /// Says that the digest of an OPEN is whole; does nothing.
    pub fn has_digest(&self)
        ensures { HasDigest self.now }
    {
        if let Command::Open { digest, .. } = self {
            is_whole(*digest);
        }
    }

    /// Whether its fields are in the ranges of a journal's rows.
    pub fn is_in_range(&self) -> bool
        ensures { IsTrue result ↔ IsCommand self.now }
    {
        match self {
            Command::Open {
                key,
                story,
                digest,
                seed,
                cols,
                rows,
                budget,
            } => is_open_in_range(key, *story, *digest, *seed, *cols, *rows, *budget),
            Command::Line { win, term, text } => is_line_in_range(*win, *term, text),
            Command::Char { win, code } => is_char_in_range(*win, *code),
            Command::File { name } => is_name(name),
            Command::Close => true,
            Command::Size { cols, rows } => is_size_in_range(*cols, *rows),
        }
    }

    /// Whether a journal of the version with this byte may have a row of it.
    pub fn is_in_version(&self, version: u8) -> bool
        ensures { IsTrue result ↔ IsInVersion version self.now }
    {
        match self {
            Command::Size { .. } => version == 1,
            _ => true,
        }
    }

    /// Whether it opens a session.
    pub fn is_open(&self) -> bool
        ensures { result ≡ is_open self.now }
    {
        matches!(self, Command::Open { .. })
    }

    /// Whether it closes a session.
    pub fn is_close(&self) -> bool
        ensures { result ≡ is_close self.now }
    {
        matches!(self, Command::Close)
    }

    /// The number of its kind.
    pub(crate) fn kind(&self) -> u8
        ensures { result ≡ command_kind self.now }
    {
        match self {
            Command::Open { .. } => 1,
            Command::Line { .. } => 2,
            Command::Char { .. } => 3,
            Command::File { .. } => 4,
            Command::Close => 5,
            Command::Size { .. } => 6,
        }
    }

    /// How many bytes a row carries of it.
    pub fn payload_len(&self) -> usize
        requires { IsCommand self.now }
        ensures value { result ≡ length (payload_of self.now) }
        ensures within { result ≤ 4104 }
    {
        match self {
            Command::Open { key, .. } => 53 + key.as_slice().len(),
            Command::Line { text, .. } => 8 + text.as_utf8().len(),
            Command::Char { .. } => 8,
            Command::File { name } => name.as_utf8().len(),
            Command::Close => 0,
            Command::Size { .. } => 2,
        }
    }

    /// An equal command; an error where memory runs out.
    pub fn copy_of(&self, alloc: Global) -> Result<Command, AllocError>
        ensures { IfOk result (λ command. command ≡ self.now) }
    {
        Ok(match self {
            Command::Open {
                key,
                story,
                digest,
                seed,
                cols,
                rows,
                budget,
            } => Command::Open {
                key: key.copy_of(alloc)?,
                story: *story,
                digest: *digest,
                seed: *seed,
                cols: *cols,
                rows: *rows,
                budget: *budget,
            },
            Command::Line { win, term, text } => Command::Line {
                win: *win,
                term: *term,
                text: text.copy_of(alloc)?,
            },
            Command::Char { win, code } => Command::Char {
                win: *win,
                code: *code,
            },
            Command::File { name } => Command::File {
                name: name.copy_of(alloc)?,
            },
            Command::Close => Command::Close,
            Command::Size { cols, rows } => Command::Size {
                cols: *cols,
                rows: *rows,
            },
        })
    }
}
