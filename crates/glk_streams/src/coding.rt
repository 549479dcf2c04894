//! How a stream keeps characters as bytes (Glk 0.7.5, "Streams").

ghost use Rattle.std.specs.Prelude.{◌≡◌, ◌≤◌, ◌+◌, length, IfSome};
ghost use Rattle.bstr.specs.Utf8.{decoded};
ghost use Rattle.glk_streams.specs.Coding as coding;
ghost use Rattle.glk_streams.specs.declared.coding.Coding.TheVariants.{Latin1};

use crate::file::is_text;
use crate::stream::Target;
use byteorder::{BigEndian, ByteOrder};
use std::alloc::{AllocError, Global};

/// A character that was read, and how many positions it takes.
#[derive(Clone, Copy, Debug, PartialEq, Eq)]
pub struct Reading {
    pub code: u32,
    pub steps: u32,
}

/// A byte for each character, UTF-8, or four bytes for each character, the highest first.
#[derive(Clone, Copy, Debug, PartialEq, Eq)]
pub enum Coding {
    Latin1,
    Utf8,
    Utf32,
}

impl Coding {
    /// The coding of a stream: a plain stream has bytes, a Unicode stream UTF-8 in a file of text
    /// mode and four bytes else.
    pub fn of(unicode: bool, target: &Target) -> Coding
        ensures { result ≡ coding.coding_of unicode target.now }
    {
        if !unicode {
            return Coding::Latin1;
        }
        match target {
            Target::Window(_) => Coding::Utf32,
            Target::Memory { .. } => Coding::Utf32,
            Target::File { usage, .. } => {
                if is_text(*usage) {
                    Coding::Utf8
                } else {
                    Coding::Utf32
                }
            }
        }
    }

    /// The character that is kept for a code, `?` where the coding has no such character.
    pub fn kept_code(self, code: u32) -> u32
        ensures { result ≡ coding.kept_code self code }
    {
        let is_held = match self {
            Coding::Latin1 => code < 256,
            Coding::Utf8 => char::from_u32(code).is_some(),
            Coding::Utf32 => true,
        };
        if is_held { code } else { 0x3F }
    }

    /// How many bytes a position counts.
    pub fn unit(self) -> u32
        ensures value { result ≡ coding.unit_of self }
        ensures fits { result ≤ 4 }
    {
        match self {
            Coding::Latin1 | Coding::Utf8 => 1,
            Coding::Utf32 => 4,
        }
    }

    /// How many positions so many bytes have.
    pub fn units(self, bytes: &[u8]) -> usize
        ensures value { result ≡ coding.units_of self bytes.now }
        ensures fits { result ≤ length bytes.now }
    {
        match self {
            Coding::Latin1 | Coding::Utf8 => bytes.len(),
            Coding::Utf32 => bytes.len() / 4,
        }
    }

    /// How many positions a character of so many bytes takes.
    pub(crate) fn steps(self, count: usize) -> usize
        ensures value { result ≡ coding.steps_of self count }
        ensures fits { 1 ≤ count → result ≤ count }
    {
        match self {
            Coding::Latin1 | Coding::Utf32 => 1,
            Coding::Utf8 => count,
        }
    }

    /// The bytes that are kept for a code, written into the buffer.
    #[tactic(auto, using(crate::proofs::CodingLemmas::take_one_set))]
    pub(crate) fn write(self, code: u32, buffer: &mut [u8]) -> &[u8]
        requires { length buffer.old ≡ 4 }
        ensures value { result.now ≡ coding.bytes_kept self code }
        ensures some { 1 ≤ length result.now }
        ensures few { length result.now ≤ 4 }
    {
        match self {
            Coding::Latin1 => {
                buffer[0] = latin1(code);
                &buffer[..1]
            }
            Coding::Utf8 => char::from_u32(code)
                .unwrap_or('?')
                .encode_utf8(buffer)
                .as_bytes(),
            Coding::Utf32 => {
                buffer.copy_from_slice(&code.to_be_bytes());
                buffer
            }
        }
    }

    /// The character at a position of a file's bytes; None at their end.
    pub(crate) fn read(self, bytes: &[u8], place: u32) -> Option<Reading>
        requires { length bytes.now ≤ 1048576 }
        ensures value { result ≡ coding.character_at self bytes.now place }
        ensures within { IfSome result (λ r. place + r.steps ≤ length bytes.now) }
    {
        let at = place as usize;
        if at >= self.units(bytes) {
            return None;
        }
        Some(match self {
            Coding::Latin1 => Reading {
                code: u32::from(bytes[at]),
                steps: 1,
            },
            Coding::Utf8 => read_utf8(&bytes[at..]),
            Coding::Utf32 => Reading {
                code: BigEndian::read_u32(&bytes[4 * at..]),
                steps: 1,
            },
        })
    }
}

/// The byte that is kept for a code, `?` above 255.
fn latin1(code: u32) -> u8
    ensures { result ≡ coding.kept_code Latin1 code }
{
    if code < 256 { code as u8 } else { b'?' }
}

/// The first character in UTF-8, or `?` for one byte where the bytes begin with none.
fn read_utf8(bytes: &[u8]) -> Reading
    requires { 1 ≤ length bytes.now }
    ensures value { result ≡ coding.first_reading bytes.now }
    ensures within { result.steps ≤ length bytes.now }
{
    match first_char(bytes) {
        (None, _) => Reading {
            code: 0x3F,
            steps: 1,
        },
        (Some(character), size) => Reading {
            code: u32::from(character),
            steps: size as u32,
        },
    }
}

/// The first character in UTF-8, if the bytes begin with one, and how many bytes were looked at.
fn first_char(bytes: &[u8]) -> (Option<char>, usize)
    requires { 1 ≤ length bytes.now }
    ensures char { result.0 ≡ (decoded bytes.now).char }
    ensures size { result.1 ≡ (decoded bytes.now).size }
    ensures within { result.1 ≤ length bytes.now }
    ensures few { result.1 ≤ 4 }
{
    bstr::decode_utf8(bytes)
}
