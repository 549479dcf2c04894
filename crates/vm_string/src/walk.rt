//! A walk down the string-decoding table, bit by bit.

ghost use Rattle.std.specs.Prelude.{◌≡◌, ◌<◌, ◌+◌, ◌^◌, OnOk, IfOk};
ghost use Rattle.vm_string.specs.Node.{BeginsInside};
ghost use Rattle.vm_string.specs.Walk as spec;
ghost use Rattle.vm_string.specs.Walk.{IsFitWay};

use crate::node::{Node, read_node};
use crate::piece::{Cursor, Piece};
use crate::stop::StringStop;
use vm_memory::Memory;

// A walk on its way: its node, the bit where this path began, the next bit, and how many characters
// of the node at the path's end are taken.
#[derive(Clone, Copy, Debug, PartialEq, Eq)]
pub(crate) struct Way {
    pub(crate) node: u32,
    pub(crate) start: u64,
    pub(crate) here: u64,
    pub(crate) taken: u32,
}

// What counts as a branch: a fork, and the end of a node of characters, where a new path begins.
#[derive(Clone, Copy, Debug, PartialEq, Eq)]
pub(crate) enum Branch {
    Fork { left: u32, right: u32 },
    NewPath,
}

// What is met at a node.
#[derive(Clone, Copy, Debug, PartialEq, Eq)]
pub(crate) enum Turn {
    Gives(Piece, Cursor),
    Branches(Branch),
}

// The bit with this number in memory.
fn read_bit(memory: &Memory<'_>, place: u64) -> Result<u32, StringStop>
    requires { place < 2 ^ 35 }
    ensures value { result ≡ spec.bit_at memory.now place }
    ensures inside { OnOk result (place < 2 ^ 27) }
{
    let byte = memory.read1((place / 8) as u32)?;
    Ok((byte >> (place % 8) as u32) & 1)
}

/// The cursor at a bit.
pub(crate) fn cursor_at(place: u64, taken: u32) -> Cursor
    requires place { place < 2 ^ 35 }
    requires taken { taken < 2 ^ 29 }
    ensures { result ≡ spec.cursor_at place taken }
{
    Cursor {
        kind: 0xE1,
        at: (place / 8) as u32,
        bit: (place % 8) as u32 + 8 * taken,
    }
}

// A character of a node of characters, or its end.
fn next_of_run(way: Way, code: u32) -> Turn
    requires start { way.start < 2 ^ 35 }
    requires taken { way.taken + 1 < 2 ^ 29 }
    ensures { result ≡ spec.next_of_run way code }
{
    if code == 0 {
        Turn::Branches(Branch::NewPath)
    } else {
        Turn::Gives(Piece::Char(code), cursor_at(way.start, way.taken + 1))
    }
}

// What a node gives, or how it branches.
#[tactic(auto, unfolding(crate::specs::Walk::met))]
fn visit(memory: &Memory<'_>, way: Way, node: Node) -> Result<Turn, StringStop>
    requires start { way.start < 2 ^ 35 }
    requires here { way.here < 2 ^ 35 }
    requires taken { way.taken < 2 ^ 29 }
    requires node { BeginsInside node }
    ensures value { result ≡ spec.met memory.now way node }
{
    Ok(match node {
        Node::Fork { left, right } => Turn::Branches(Branch::Fork { left, right }),
        Node::End => Turn::Gives(Piece::End, cursor_at(way.here, 0)),
        Node::One(code) => Turn::Gives(Piece::Char(code), cursor_at(way.here, 0)),
        Node::Bytes(at) => next_of_run(way, memory.read1(at + way.taken)?),
        Node::Words(at) => next_of_run(way, memory.read4(at + 4 * way.taken)?),
        Node::Refers { at, args_at, args } => {
            Turn::Gives(Piece::Call { at, args_at, args }, cursor_at(way.here, 0))
        }
    })
}

// The way behind a branch: 0 goes left and 1 right, and a new path begins at the root.
fn follow(memory: &Memory<'_>, root: u32, way: Way, branch: Branch) -> Result<Way, StringStop>
    requires { IsFitWay way }
    ensures value { result ≡ spec.branch_followed memory.now root way branch }
    ensures kept { IfOk result IsFitWay }
{
    match branch {
        Branch::Fork { left, right } => {
            let bit = read_bit(memory, way.here)?;
            Ok(Way {
                node: if bit == 0 { left } else { right },
                start: way.start,
                here: way.here + 1,
                taken: way.taken,
            })
        }
        Branch::NewPath => Ok(Way {
            node: root,
            start: way.here,
            here: way.here,
            taken: 0,
        }),
    }
}

/// The piece that at most so many branches lead to, wherever in memory they stand. It is a call, so
/// that `piece_from` stays short.
#[cold]
#[inline(never)]
pub(crate) fn walk(
    memory: &Memory<'_>,
    root: u32,
    mut way: Way,
    mut left: u32,
) -> Result<(Piece, Cursor), StringStop>
    requires { IsFitWay way }
    ensures { result ≡ spec.walk left memory.now root way }
{
    loop {
        let node = read_node(memory, way.node)?;
        match visit(memory, way, node)? {
            Turn::Gives(piece, after) => return Ok((piece, after)),
            Turn::Branches(branch) => {
                if left == 0 {
                    return Err(StringStop::BadString(way.node));
                }
                way = follow(memory, root, way, branch)?;
                left -= 1;
            }
        }
    }
}
