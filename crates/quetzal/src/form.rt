//! The form and its chunks (Quetzal 1.4, "Overall structure").

ghost use Rattle.std.specs.Prelude.{◌≡◌, ◌+◌, ◌%◌, ◌≤◌, None, Some, Ok, Err};
ghost use Rattle.std.specs.Prelude.{length, drop, IfSome, IfNone, MatchOption};
ghost use Rattle.quetzal.specs.Chunks.{chunk_at, are_chunks, first_named, form_body, memory_chunk};
ghost use Rattle.glulx_image.specs.Header.{word};
ghost use Rattle.quetzal.specs.Chunks.{needed, parts_of, pieces_seen};
ghost use Rattle.quetzal.specs.Fault.{GivesExactly};

use crate::fault::SaveFault;
use byteorder::{BigEndian, ByteOrder};

/// The chunks that a save is made of: the first of each name.
#[derive(Clone, Copy)]
pub struct Parts<'a> {
    pub header: &'a [u8],
    pub memory: &'a [u8],
    /// Whether the memory is coded against the original.
    pub compressed: bool,
    pub stack: &'a [u8],
    pub heap: Option<&'a [u8]>,
}

pub(crate) const FORM: u32 = 0x464F_524D;

pub(crate) const IFZS: u32 = 0x4946_5A53;

pub(crate) const IFHD: u32 = 0x4946_6864;

pub(crate) const CMEM: u32 = 0x434D_656D;

const UMEM: u32 = 0x554D_656D;

pub(crate) const STKS: u32 = 0x5374_6B73;

pub(crate) const MALL: u32 = 0x4D41_6C6C;

pub fn word(bytes: &[u8], at: usize) -> u32
    requires { at + 4 ≤ length bytes.now }
    ensures { result ≡ word bytes.now at }
{
    BigEndian::read_u32(&bytes[at..])
}

/// The bytes behind the zero byte that follows odd contents.
fn past_padding(size: usize, after: &[u8]) -> &[u8]
    ensures { result.now ≡ drop (size % 2) after.now }
{
    if size % 2 == 0 {
        return after;
    }
    match after {
        [] => after,
        [_, rest @ ..] => rest,
    }
}

/// The name and the contents of the chunk at the front, and what follows it.
#[tactic(auto, unfolding(crate::specs::Chunks::chunk_at))]
fn chunk_at(rest: &[u8]) -> Option<(u32, &[u8], &[u8])>
    ensures { MatchOption result (chunk_at rest.now ≡ None)
        (λ c. chunk_at rest.now ≡ Some (c.0, c.1.now, c.2.now)) }
{
    if rest.len() < 8 {
        return None;
    }
    let name = word(rest, 0);
    let size = word(rest, 4) as usize;
    let (_, contents) = rest.split_at(8);
    if contents.len() < size {
        return None;
    }
    let (contents, after) = contents.split_at(size);
    Some((name, contents, past_padding(size, after)))
}

/// Whether the bytes are chunks to their end.
fn are_chunks(bytes: &[u8]) -> bool
    ensures { result ≡ are_chunks (length bytes.now) bytes.now }
{
    let mut rest = bytes;
    for _ in 0..bytes.len() {
        if rest.is_empty() {
            return true;
        }
        match chunk_at(rest) {
            None => return false,
            Some((_, _, after)) => rest = after,
        }
    }
    true
}

/// The contents of the first chunk of this name.
fn first_named(name: u32, bytes: &[u8]) -> Option<&[u8]>
    ensures { MatchOption result (first_named name (length bytes.now) bytes.now ≡ None)
        (λ c. first_named name (length bytes.now) bytes.now ≡ Some c.now) }
{
    let mut rest = bytes;
    for _ in 0..bytes.len() {
        if rest.is_empty() {
            return None;
        }
        match chunk_at(rest) {
            None => return None,
            Some((found, contents, after)) => {
                if found == name {
                    return Some(contents);
                }
                rest = after;
            }
        }
    }
    None
}

/// The chunks of the form.
#[tactic(auto, unfolding(crate::specs::Chunks::form_body))]
fn body(bytes: &[u8]) -> Result<&[u8], SaveFault>
    ensures { GivesExactly (λ b. b.now) result (form_body bytes.now) }
{
    if bytes.len() < 12 {
        return Err(SaveFault::NotSave);
    }
    if !(word(bytes, 0) == FORM && word(bytes, 8) == IFZS) {
        return Err(SaveFault::NotSave);
    }
    let size = word(bytes, 4) as usize;
    if size < 4 || bytes.len() < 8 + size {
        return Err(SaveFault::Cut);
    }
    let (_, rest) = bytes.split_at(12);
    let (body, _) = rest.split_at(size - 4);
    Ok(body)
}

fn memory_of(body: &[u8]) -> Result<(&[u8], bool), SaveFault>
    ensures { GivesExactly (λ m. (m.0.now, m.1)) result (memory_chunk body.now) }
{
    match first_named(CMEM, body) {
        Some(memory) => Ok((memory, true)),
        None => match first_named(UMEM, body) {
            Some(memory) => Ok((memory, false)),
            None => Err(SaveFault::Cut),
        },
    }
}

fn needed(name: u32, body: &[u8]) -> Result<&[u8], SaveFault>
    ensures { GivesExactly (λ c. c.now) result (needed name body.now) }
{
    match first_named(name, body) {
        Some(contents) => Ok(contents),
        None => Err(SaveFault::Cut),
    }
}

/// The parts of a save, or the first of the causes 1 and 2.
#[tactic(auto, unfolding(crate::specs::Chunks::parts_of))]
pub fn read_parts(bytes: &[u8]) -> Result<Parts<'_>, SaveFault>
    ensures exact { GivesExactly pieces_seen result (parts_of bytes.now) }
{
    let body = body(bytes)?;
    if !are_chunks(body) {
        return Err(SaveFault::Cut);
    }
    let header = needed(IFHD, body)?;
    let stack = needed(STKS, body)?;
    let (memory, compressed) = memory_of(body)?;
    let heap = first_named(MALL, body);
    Ok(Parts {
        header,
        memory,
        compressed,
        stack,
        heap,
    })
}
