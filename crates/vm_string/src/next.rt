//! The next piece of a string.

ghost use Rattle.std.specs.Prelude.{◌≡◌};
ghost use Rattle.vm_string.specs.Meaning.{SpellsPiece};
ghost use Rattle.vm_string.specs.Next as spec;

use crate::descent::piece_from;
use crate::piece::{Cursor, Piece};
use crate::stop::StringStop;
use crate::walk::Way;
use vm_memory::Memory;

/// How many branches may lead to a piece.
const MAX_BRANCHES: u32 = 65_536;

// The piece of an E1 string at a cursor.
#[tactic(auto, unfolding(crate::specs::Next::coded_piece))]
fn coded_piece(
    memory: &Memory<'_>,
    table: u32,
    cursor: Cursor,
) -> Result<(Piece, Cursor), StringStop>
    ensures { result ≡ spec.coded_piece memory.now table cursor }
{
    if table == 0 {
        return Err(StringStop::NoTable);
    }
    let root = memory.read4(table.wrapping_add(8))?;
    let place = 8 * u64::from(cursor.at) + u64::from(cursor.bit % 8);
    let way = Way {
        node: root,
        start: place,
        here: place,
        taken: cursor.bit / 8,
    };
    piece_from(memory, root, way, MAX_BRANCHES)
}

// The piece of a string of bytes at a cursor.
fn byte_piece(memory: &Memory<'_>, cursor: Cursor) -> Result<(Piece, Cursor), StringStop>
    ensures { result ≡ spec.plain_piece 1 memory.now cursor }
{
    let code = memory.read1(cursor.at)?;
    let after = Cursor {
        kind: cursor.kind,
        at: cursor.at + 1,
        bit: cursor.bit,
    };
    Ok((
        if code == 0 {
            Piece::End
        } else {
            Piece::Char(code)
        },
        after,
    ))
}

// The piece of a string of words at a cursor.
fn word_piece(memory: &Memory<'_>, cursor: Cursor) -> Result<(Piece, Cursor), StringStop>
    ensures { result ≡ spec.plain_piece 4 memory.now cursor }
{
    let code = memory.read4(cursor.at)?;
    let after = Cursor {
        kind: cursor.kind,
        at: cursor.at + 4,
        bit: cursor.bit,
    };
    Ok((
        if code == 0 {
            Piece::End
        } else {
            Piece::Char(code)
        },
        after,
    ))
}

// The cursor of an object's first piece.
#[tactic(auto, unfolding(crate::specs::Next::at_first_piece))]
fn opened(memory: &Memory<'_>, cursor: Cursor) -> Result<Cursor, StringStop>
    ensures { result ≡ spec.at_first_piece memory.now cursor }
{
    if cursor.kind != 0 {
        return Ok(cursor);
    }
    let at = cursor.at;
    match memory.read1(at)? {
        0xE0 => Ok(Cursor {
            kind: 0xE0,
            at: at + 1,
            bit: 0,
        }),
        0xE1 => Ok(Cursor {
            kind: 0xE1,
            at: at + 1,
            bit: 0,
        }),
        0xE2 => Ok(Cursor {
            kind: 0xE2,
            at: at + 4,
            bit: 0,
        }),
        _ => Err(StringStop::BadString(at)),
    }
}

#[tactic(auto, unfolding(crate::specs::Next::piece_in))]
fn piece_in(memory: &Memory<'_>, table: u32, cursor: Cursor) -> Result<(Piece, Cursor), StringStop>
    ensures { result ≡ spec.piece_in memory.now table cursor }
{
    match cursor.kind {
        0xE0 => byte_piece(memory, cursor),
        0xE1 => coded_piece(memory, table, cursor),
        0xE2 => word_piece(memory, cursor),
        _ => Err(StringStop::BadString(cursor.at)),
    }
}

// The next piece, and the cursor behind it to the bit.
fn piece_at(memory: &Memory<'_>, table: u32, cursor: Cursor) -> Result<(Piece, Cursor), StringStop>
    ensures { result ≡ spec.piece_after memory.now table cursor }
{
    let cursor = opened(memory, cursor)?;
    piece_in(memory, table, cursor)
}

/// The next piece of a string, and the cursor behind it. Read where a byte isn't in memory;
/// BadString at an object or a node of no known type, and where more than 65,536 branches lead to
/// the piece; NoTable where an E1 string is read with table 0 (Glulx 3.1.3, "Strings").
pub fn next_piece(
    memory: &Memory<'_>,
    table: u32,
    cursor: Cursor,
) -> Result<(Piece, Cursor), StringStop>
    ensures value { SpellsPiece memory.now table cursor result }
    ensures exact { result ≡ spec.piece_after memory.now table cursor }
{
    piece_at(memory, table, cursor)
}
