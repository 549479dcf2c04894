//! The walk below RAMSTART, where a story's table and strings mostly lie: on one slice of bytes and
//! with no fault. All else is left to the walk over memory.

ghost use Rattle.std.specs.Prelude.{◌≡◌, ◌≤◌, ◌<◌, ◌+◌, ◌/◌, ◌%◌, ◌^◌, ◌==◌, ℕ};
ghost use Rattle.std.specs.Prelude.{if◌then◌else◌, IsTrue, IfSome, OnSome, Ok, length, take};
ghost use Rattle.vm_memory.specs.MemoryMap.{number_at};
ghost use Rattle.vm_string.specs.Walk as spec;
ghost use Rattle.vm_string.specs.Walk.{IsFitWay};

use crate::piece::{Cursor, Piece};
use crate::stop::StringStop;
use crate::walk::{Way, cursor_at, walk};
use byteorder::{BigEndian, ByteOrder};
use vm_memory::{MAX_SIZE, Memory};

// The bytes below RAMSTART, no more than memory has.
#[inline(always)]
fn front_of<'i>(memory: &Memory<'i>) -> &'i [u8]
    ensures value { result.now ≡ take (length result.now) memory.now.bytes }
    ensures within { length result.now ≤ MAX_SIZE }
{
    let _size = memory.size();
    &memory.rom()[..memory.ramstart() as usize]
}

// The byte at an address.
#[inline(always)]
fn byte_of(front: &[u8], at: u32) -> u32
    requires { at < length front.now }
    ensures { result ≡ number_at 1 front.now at }
{
    u32::from(front[at as usize])
}

// Whether a fork stands at the node, with all its bytes.
#[inline(always)]
fn is_fork(front: &[u8], node: u32) -> bool
    ensures inside { IsTrue result → node + 9 ≤ length front.now }
    ensures kind { IsTrue result → number_at 1 front.now node ≡ 0 }
{
    u64::from(node) + 9 <= front.len() as u64 && byte_of(front, node) == 0
}

// The bit with this number.
#[inline(always)]
fn bit_of(front: &[u8], place: u64) -> u32
    requires within { length front.now ≤ MAX_SIZE }
    requires inside { place / 8 < length front.now }
    ensures value { result ≡ number_at 1 front.now (place / 8) / 2 ^ (place % 8) % 2 }
    ensures bit { result < 2 }
{
    (byte_of(front, (place / 8) as u32) >> (place % 8) as u32) & 1
}

// The node to which a fork leads: 0 goes left, 1 right. The node's address is added last, since the
// fork before gives it late and the bit is known early.
#[inline(always)]
fn chosen(front: &[u8], node: u32, bit: u32) -> u32
    requires within { length front.now ≤ MAX_SIZE }
    requires inside { node + 9 ≤ length front.now }
    requires bit { bit < 2 }
    ensures { result ≡ (if bit == 0
        then number_at 4 front.now (node + 1)
        else number_at 4 front.now (node + 5)) }
{
    let words = &front[(1 + 4 * bit) as usize..];
    BigEndian::read_u32(&words[node as usize..])
}

// The way behind the forks that stand below RAMSTART, as do their bits, and how many branches are
// left there.
fn descend(memory: &Memory<'_>, mut way: Way, mut left: u32) -> (Way, u32)
    requires { IsFitWay way }
    ensures same { (root : ℕ) → spec.walk result.1 memory.now root result.0
        ≡ spec.walk left memory.now root way }
    ensures fit { IsFitWay result.0 }
{
    let front = front_of(memory);
    while left > 0 && way.here / 8 < front.len() as u64 && is_fork(front, way.node) {
        way = Way {
            node: chosen(front, way.node, bit_of(front, way.here)),
            start: way.start,
            here: way.here + 1,
            taken: way.taken,
        };
        left -= 1;
    }
    (way, left)
}

// The byte at an address, unless it's 0 or stands from RAMSTART on.
#[inline(always)]
fn some_byte(front: &[u8], at: u32) -> Option<u32>
    ensures value { IfSome result (λ code. code ≡ number_at 1 front.now at) }
    ensures inside { OnSome result (at < length front.now) }
    ensures some { IfSome result (λ code. 0 < code) }
{
    if at as usize >= front.len() {
        return None;
    }
    let code = byte_of(front, at);
    if code == 0 { None } else { Some(code) }
}

// The piece of a leaf below RAMSTART: the string's end, a character of one byte, or the next of a
// node of them. Another leaf, and the end of a node's characters, are none.
#[inline(always)]
fn leaf_at(memory: &Memory<'_>, way: Way) -> Option<(Piece, Cursor)>
    requires { IsFitWay way }
    ensures { IfSome result (λ found. (n root : ℕ)
        → Ok found ≡ spec.walk n memory.now root way) }
{
    let front = front_of(memory);
    if u64::from(way.node) + 2 > front.len() as u64 {
        return None;
    }
    match byte_of(front, way.node) {
        0x01 => Some((Piece::End, cursor_at(way.here, 0))),
        0x02 => Some((
            Piece::Char(byte_of(front, way.node + 1)),
            cursor_at(way.here, 0),
        )),
        0x03 => {
            let code = some_byte(front, way.node + 1 + way.taken)?;
            Some((Piece::Char(code), cursor_at(way.start, way.taken + 1)))
        }
        _ => None,
    }
}

/// The piece that at most so many branches lead to: the leaf behind the forks below RAMSTART, or
/// else what the walk over memory gives from there.
pub(crate) fn piece_from(
    memory: &Memory<'_>,
    root: u32,
    way: Way,
    left: u32,
) -> Result<(Piece, Cursor), StringStop>
    requires { IsFitWay way }
    ensures { result ≡ spec.walk left memory.now root way }
{
    let (way, left) = descend(memory, way, left);
    match leaf_at(memory, way) {
        Some(found) => Ok(found),
        None => walk(memory, root, way, left),
    }
}
