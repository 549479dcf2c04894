//! A container and the story inside it (Blorb 2.0.4, "Contents of the Resource Index Chunk").

ghost use Rattle.std.specs.Prelude.{◌≡◌, ◌+◌, ◌*◌, ◌≤◌, length, IfOk, IfSome};
ghost use Rattle.blorb_read.specs.Container as container;
ghost use Rattle.blorb_read.specs.Container.{begins_at, is_executable, is_indexed, story_start};
ghost use Rattle.blorb_read.specs.Container.{story_span};

use crate::fault::BlorbFault;
use byteorder::{BigEndian, ByteOrder};

/// Where the contents of a chunk stand in the file: the first byte's place and the number of bytes.
#[derive(Clone, Copy, Debug, PartialEq, Eq)]
pub struct Span {
    pub start: usize,
    pub length: usize,
}

// Names of chunks, of the form's type and of a usage.
const FORM: u32 = 0x464F_524D;

const IFRS: u32 = 0x4946_5253;

const RIDX: u32 = 0x5249_6478;

const EXEC: u32 = 0x4578_6563;

const GLUL: u32 = 0x474C_554C;

/// Where the index chunk begins, behind the form's header and type.
const INDEX: usize = 12;

/// Where the entries of the index begin, and the bytes of each.
const ENTRIES: usize = 24;

const ENTRY: usize = 12;

/// The place and length of the story in the container's bytes. Refusals by their first cause.
pub fn find_story(bytes: &[u8]) -> Result<Span, BlorbFault>
    ensures exact { result ≡ story_span bytes.now }
    ensures within { IfOk result (λ span. span.start + span.length ≤ length bytes.now) }
{
    if bytes.len() < 16 || !begins_well(bytes) {
        return Err(BlorbFault::NotBlorb);
    }
    if !has_index(bytes) {
        return Err(BlorbFault::Cut(INDEX));
    }
    match exec_of(bytes, word(bytes, 20) as usize) {
        Some(start) => chunk_at(bytes, start),
        None => Err(BlorbFault::NoExec),
    }
}

fn word(bytes: &[u8], at: usize) -> u32
    requires { at + 4 ≤ length bytes.now }
    ensures { result ≡ container.word bytes.now at }
{
    BigEndian::read_u32(&bytes[at..])
}

fn begins_well(bytes: &[u8]) -> bool
    requires { 16 ≤ length bytes.now }
    ensures { result ≡ begins_at bytes.now }
{
    word(bytes, 0) == FORM && word(bytes, 8) == IFRS && word(bytes, INDEX) == RIDX
}

// The resource index ends inside the file, and its entries inside it.
fn has_index(bytes: &[u8]) -> bool
    ensures { result ≡ is_indexed bytes.now }
{
    if bytes.len() < ENTRIES {
        return false;
    }
    let size = word(bytes, 16) as usize;
    let count = word(bytes, 20) as usize;
    20 + size <= bytes.len() && 4 + ENTRY * count <= size
}

// Where the chunk begins that the first entry of usage `Exec` and number 0 names.
fn exec_of(bytes: &[u8], count: usize) -> Option<usize>
    requires { 24 + 12 * count ≤ length bytes.now }
    ensures value { result ≡ story_start count 24 bytes.now }
    ensures within { IfSome result (λ start. start ≤ 4294967295) }
{
    for index in 0..count {
        let at = ENTRIES + ENTRY * index;
        if names_story(bytes, at) {
            return Some(word(bytes, at + 8) as usize);
        }
    }
    None
}

fn names_story(bytes: &[u8], at: usize) -> bool
    requires { at + 8 ≤ length bytes.now }
    ensures { result ≡ is_executable bytes.now at }
{
    word(bytes, at) == EXEC && word(bytes, at + 4) == 0
}

// The contents of the Glulx chunk at a place.
fn chunk_at(bytes: &[u8], start: usize) -> Result<Span, BlorbFault>
    requires { start ≤ 4294967295 }
    ensures { result ≡ container.story_chunk_at bytes.now start }
{
    if bytes.len() < start + 8 {
        return Err(BlorbFault::Cut(start));
    }
    if word(bytes, start) != GLUL {
        return Err(BlorbFault::NotGlulx);
    }
    let length = word(bytes, start + 4) as usize;
    if bytes.len() < start + 8 + length {
        return Err(BlorbFault::Cut(start));
    }
    Ok(Span {
        start: start + 8,
        length,
    })
}
