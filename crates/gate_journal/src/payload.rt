//! The command of a row, read from its payload (own).

ghost use Rattle.std.specs.Prelude.{◌≡◌, ◌≤◌, ◌+◌, IfOk, MatchOption, length, None, Some};
ghost use Rattle.story_text.specs.Reading.{text_of_bytes};
ghost use Rattle.gate_journal.specs.Command.{IsCommand};
ghost use Rattle.gate_journal.specs.Payload.{IsPayload, IsNoPayload, open_in};

use crate::command::Command;
use byteorder::{BigEndian, ByteOrder};
use line_words::Key;
use std::alloc::{AllocError, Global};
use story_text::{Text, TextFault, text_of_bytes};

/// What an OPEN's payload has behind its key: story, digest, seed, screen and budget.
const BEHIND_KEY: usize = 52;

// The text of these bytes, where they are one; an error where memory runs out.
fn text_of(alloc: Global, bytes: &[u8]) -> Result<Option<Text>, AllocError>
    ensures { IfOk result (λ o. MatchOption o (text_of_bytes bytes.now ≡ None)
        (λ text. text_of_bytes bytes.now ≡ Some text)) }
{
    match text_of_bytes(Vec::from_slice(alloc, bytes)?) {
        Ok(text) => Ok(Some(text)),
        Err(TextFault::BadText) => Ok(None),
        Err(TextFault::NoMemory) => Err(AllocError),
    }
}

// The command, where its fields are in their ranges.
fn checked(command: Command) -> Option<Command>
    ensures { MatchOption result (IsCommand command → ⊥)
        (λ c. (c ≡ command) × IsCommand c) }
{
    if command.is_in_range() {
        Some(command)
    } else {
        None
    }
}

// The OPEN of this key and the bytes behind it.
fn open_of(alloc: Global, key: &[u8], after: &[u8]) -> Result<Command, AllocError>
    requires { length after.now ≡ 52 }
    ensures { IfOk result (λ c. c ≡ open_in key.now after.now) }
{
    let mut digest = [0; 32];
    digest.copy_from_slice(&after[2..34]);
    Ok(Command::Open {
        key: Key::of(alloc, key)?,
        story: BigEndian::read_u16(after),
        digest,
        seed: BigEndian::read_u64(&after[34..]),
        cols: after[42],
        rows: after[43],
        budget: BigEndian::read_u64(&after[44..]),
    })
}

fn read_open(alloc: Global, payload: &[u8]) -> Result<Option<Command>, AllocError>
    ensures { IfOk result (λ o. MatchOption o (IsNoPayload 1 payload.now)
        (IsPayload 1 payload.now)) }
{
    let [size, rest @ ..] = payload else {
        return Ok(None);
    };
    let size = usize::from(*size);
    if rest.len() != size + BEHIND_KEY {
        return Ok(None);
    }
    let (word, after) = rest.split_at(size);
    let command = open_of(alloc, word, after)?;
    Ok(checked(command))
}

fn read_line(alloc: Global, payload: &[u8]) -> Result<Option<Command>, AllocError>
    ensures { IfOk result (λ o. MatchOption o (IsNoPayload 2 payload.now)
        (IsPayload 2 payload.now)) }
{
    if payload.len() < 8 {
        return Ok(None);
    }
    let win = BigEndian::read_u32(payload);
    let term = BigEndian::read_u32(&payload[4..]);
    let Some(text) = text_of(alloc, &payload[8..])? else {
        return Ok(None);
    };
    Ok(checked(Command::Line { win, term, text }))
}

fn read_char(payload: &[u8]) -> Option<Command>
    ensures { MatchOption result (IsNoPayload 3 payload.now) (IsPayload 3 payload.now) }
{
    if payload.len() != 8 {
        return None;
    }
    let win = BigEndian::read_u32(payload);
    let code = BigEndian::read_u32(&payload[4..]);
    checked(Command::Char { win, code })
}

fn read_file(alloc: Global, payload: &[u8]) -> Result<Option<Command>, AllocError>
    ensures { IfOk result (λ o. MatchOption o (IsNoPayload 4 payload.now)
        (IsPayload 4 payload.now)) }
{
    let Some(name) = text_of(alloc, payload)? else {
        return Ok(None);
    };
    Ok(Some(Command::File { name }))
}

fn read_close(payload: &[u8]) -> Option<Command>
    ensures { MatchOption result (IsNoPayload 5 payload.now) (IsPayload 5 payload.now) }
{
    if payload.is_empty() {
        Some(Command::Close)
    } else {
        None
    }
}

fn read_size(payload: &[u8]) -> Option<Command>
    ensures { MatchOption result (IsNoPayload 6 payload.now) (IsPayload 6 payload.now) }
{
    let [cols, rows] = payload else {
        return None;
    };
    checked(Command::Size {
        cols: *cols,
        rows: *rows,
    })
}

/// The command of a row of this kind with this payload; none where there is none.
pub fn read_command(alloc: Global, kind: u8, payload: &[u8]) -> Result<Option<Command>, AllocError>
    ensures { IfOk result (λ o. MatchOption o (IsNoPayload kind payload.now)
        (IsPayload kind payload.now)) }
{
    match kind {
        1 => read_open(alloc, payload),
        2 => read_line(alloc, payload),
        3 => Ok(read_char(payload)),
        4 => read_file(alloc, payload),
        5 => Ok(read_close(payload)),
        6 => Ok(read_size(payload)),
        _ => Ok(None),
    }
}
