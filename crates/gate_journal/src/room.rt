//! Room for one row: what its command owns, and its bytes (own).

ghost use Rattle.std.specs.Prelude.{◌≡◌, ◌+◌, ◌<◌, ◌≤◌, ◌++◌, [], ◌∷◌, length, vec_capacity};
ghost use Rattle.std.specs.Prelude.{string_bytes, string_len, string_capacity, true, IfOk};
ghost use Rattle.story_text.specs.Text.{IsText};
ghost use Rattle.line_words.specs.Field.{is_key};
ghost use Rattle.gate_journal.specs.Command.{IsCommand};
ghost use Rattle.gate_journal.specs.Rows.{payload_of, row_body};
ghost use Rattle.gate_journal.specs.declared.row.Row.{Row};

use crate::command::Command;
use crate::row::Row;
use line_words::Key;
use std::alloc::{AllocError, Global};
use story_text::Text;

/// The most bytes of a key.
const MAX_KEY: usize = 32;

/// The most bytes of a text of 1,024 characters.
const MAX_TEXT: usize = 4096;

/// The most bytes of a row past its gate, and one for the next gate.
const MAX_ROW: usize = 4109;

/// Nothing is taken from memory while a row is made in it.
#[derive(Drop)]
pub struct Room {
    key: Vec<u8>,
    text: String,
    bytes: Vec<u8>,
    ghost key_empty: { key.items ≡ [] },
    ghost key_fits: { 32 ≤ vec_capacity key },
    ghost text_empty: { string_bytes text ≡ [] },
    ghost text_fits: { 4096 ≤ string_capacity text },
    ghost bytes_empty: { bytes.items ≡ [] },
    ghost bytes_fit: { 4109 ≤ vec_capacity bytes },
}

// The piece is appended: there is room for it.
fn put(out: &mut Vec<u8>, piece: &[u8])
    requires { length out.old.items + length piece.now ≤ vec_capacity out.old }
    ensures value { out.new.items ≡ out.old.items ++ piece.now }
    ensures kept { vec_capacity out.old ≤ vec_capacity out.new }
{
    let _ = out.extend_from_slice(piece);
}

fn put_payload(out: &mut Vec<u8>, command: &Command)
    requires ranges { IsCommand command.now }
    requires fits { length out.old.items + length (payload_of command.now)
        ≤ vec_capacity out.old }
    ensures value { out.new.items ≡ out.old.items ++ payload_of command.now }
    ensures kept { vec_capacity out.old ≤ vec_capacity out.new }
{
    match command {
        Command::Open {
            key,
            story,
            digest,
            seed,
            cols,
            rows,
            budget,
        } => {
            put(out, &[key.as_slice().len() as u8]);
            put(out, key.as_slice());
            put(out, &story.to_be_bytes());
            put(out, digest);
            put(out, &seed.to_be_bytes());
            put(out, &[*cols, *rows]);
            put(out, &budget.to_be_bytes());
        }
        Command::Line { win, term, text } => {
            put(out, &win.to_be_bytes());
            put(out, &term.to_be_bytes());
            put(out, text.as_utf8());
        }
        Command::Char { win, code } => {
            put(out, &win.to_be_bytes());
            put(out, &code.to_be_bytes());
        }
        Command::File { name } => put(out, name.as_utf8()),
        Command::Close => {}
        Command::Size { cols, rows } => put(out, &[*cols, *rows]),
    }
}

// The row of a session with this command past its gate, and a zero byte for the next gate.
fn put_row(out: &mut Vec<u8>, session: u8, command: &Command)
    requires empty { out.old.items ≡ [] }
    requires fits { 4109 ≤ vec_capacity out.old }
    requires ranges { IsCommand command.now }
    ensures { (r : Row) → r.session ≡ session → r.command ≡ command.now
        → out.new.items ≡ row_body r ++ 0 ∷ [] }
{
    let size = command.payload_len() as u16;
    put(out, &[session, command.kind()]);
    put(out, &size.to_be_bytes());
    put_payload(out, command);
    put(out, &[0]);
}

/// What is written of a session's row with this command past its gate: its bytes, and a zero byte
/// for the next gate.
pub fn row_bytes(alloc: Global, session: u8, command: &Command) -> Result<Vec<u8>, AllocError>
    requires { IsCommand command.now }
    ensures { IfOk result (λ bytes. (r : Row) → r.session ≡ session → r.command ≡ command.now
        → bytes.items ≡ row_body r ++ 0 ∷ []) }
{
    let mut bytes = Vec::with_capacity(alloc, MAX_ROW)?;
    put_row(&mut bytes, session, command);
    Ok(bytes)
}

// The same text in this string.
fn text_in(mut into: String, text: &Text) -> Text
    requires empty { string_bytes into ≡ [] }
    requires fits { 4096 ≤ string_capacity into }
    requires text { IsText text.now }
    ensures { result ≡ text.now }
{
    let _ = into.push_str(text.as_str());
    Text::of(into)
}

// The same key in this vector.
fn key_in(mut into: Vec<u8>, key: &Key) -> Key
    requires empty { into.items ≡ [] }
    requires fits { 32 ≤ vec_capacity into }
    requires key { is_key key.now ≡ true }
    ensures { result ≡ key.now }
{
    let _ = into.extend_from_slice(key.as_slice());
    Key::from_vec(into)
}

// An equal command, in this room.
fn command_in(key_room: Vec<u8>, text_room: String, command: &Command) -> Command
    requires key_empty { key_room.items ≡ [] }
    requires key_fits { 32 ≤ vec_capacity key_room }
    requires text_empty { string_bytes text_room ≡ [] }
    requires text_fits { 4096 ≤ string_capacity text_room }
    requires ranges { IsCommand command.now }
    ensures { result ≡ command.now }
{
    match command {
        Command::Open {
            key,
            story,
            digest,
            seed,
            cols,
            rows,
            budget,
        } => Command::Open {
            key: key_in(key_room, key),
            story: *story,
            digest: *digest,
            seed: *seed,
            cols: *cols,
            rows: *rows,
            budget: *budget,
        },
        Command::Line { win, term, text } => Command::Line {
            win: *win,
            term: *term,
            text: text_in(text_room, text),
        },
        Command::Char { win, code } => Command::Char {
            win: *win,
            code: *code,
        },
        Command::File { name } => Command::File {
            name: text_in(text_room, name),
        },
        Command::Close => Command::Close,
        Command::Size { cols, rows } => Command::Size {
            cols: *cols,
            rows: *rows,
        },
    }
}

impl Room {
    /// Room for the longest row; an error where memory runs out.
    pub fn new(alloc: Global) -> Result<Room, AllocError> {
        Ok(Room {
            key: Vec::with_capacity(alloc, MAX_KEY)?,
            text: String::with_capacity(alloc, MAX_TEXT)?,
            bytes: Vec::with_capacity(alloc, MAX_ROW)?,
        })
    }

    /// The row of this session with an equal command, and what is written of it past its gate: its
    /// bytes and a zero byte for the next gate.
    pub fn fill(self, place: u64, session: u8, command: &Command) -> (Row, Vec<u8>)
        requires { IsCommand command.now }
        ensures row { result.0 ≡ record {
          place = place;
          session = session;
          by = session + 1;
          command = command.now;
        } }
        ensures bytes { result.1.items ≡ row_body result.0 ++ 0 ∷ [] }
    {
        let Room {
            key,
            text,
            mut bytes,
        } = self;
        let row = Row {
            place,
            session,
            by: u64::from(session) + 1,
            command: command_in(key, text, command),
        };
        put_row(&mut bytes, session, command);
        (row, bytes)
    }
}
