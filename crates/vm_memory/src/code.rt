//! Code below RAMSTART, which no write changes: its bytes are looked at once for an instruction.

ghost use Rattle.std.specs.Prelude.{◌≡◌, ◌≤◌, ◌<◌, ◌+◌, drop, length, None, IfSome, Ok};
ghost use Rattle.byteorder.specs.Endian.{big_number};
ghost use Rattle.vm_memory.specs.Access.{read};
ghost use Rattle.vm_memory.specs.Code.{IsCode};

use crate::{MAX_SIZE, Memory};
use byteorder::{BigEndian, ByteOrder};

impl<'i> Memory<'i> {
    /// The 32 bytes at the address, if they lie below RAMSTART.
    #[inline(always)]
    pub fn code_at(&self, at: u32) -> Option<&'i [u8]>
        ensures found { IfSome result (λ code. IsCode self.now at code.now) }
        ensures within { IfSome result (λ _. at + 32 ≤ MAX_SIZE) }
        ensures none { result ≡ None → self.now.ramstart < at + 32 }
    {
        if !self.is_front(at, 32) {
            return None;
        }
        Some(self.front_code(at))
    }

    // The 32 bytes below RAMSTART at the address.
    #[inline(always)]
    #[tactic(auto, using(crate::proofs::LaidLemmas::length_laid))]
    fn front_code(&self, at: u32) -> &'i [u8]
        requires { at + 32 ≤ self.now.ramstart }
        ensures found { IsCode self.now at result.now }
        ensures within { at + 32 ≤ MAX_SIZE }
    {
        let first = at as usize;
        &self.rom[first..first + 32]
    }

    /// The byte at an address among these.
    #[inline(always)]
    pub fn code1(&self, code: &[u8], start: u32, at: u32) -> u32
        requires here { IsCode self.now start code.now }
        requires low { start ≤ at }
        requires high { at + 1 ≤ start + 32 }
        ensures value { read 1 self.now at ≡ Ok result }
        ensures fits { result < 256 }
    {
        u32::from(code[(at - start) as usize])
    }

    /// The number of two bytes at an address among these.
    #[inline(always)]
    pub fn code2(&self, code: &[u8], start: u32, at: u32) -> u32
        requires here { IsCode self.now start code.now }
        requires low { start ≤ at }
        requires high { at + 2 ≤ start + 32 }
        ensures value { read 2 self.now at ≡ Ok result }
        ensures fits { result < 65536 }
    {
        two_of(code, (at - start) as usize)
    }

    /// The number of four bytes at an address among these.
    #[inline(always)]
    pub fn code4(&self, code: &[u8], start: u32, at: u32) -> u32
        requires here { IsCode self.now start code.now }
        requires low { start ≤ at }
        requires high { at + 4 ≤ start + 32 }
        ensures value { read 4 self.now at ≡ Ok result }
    {
        four_of(code, (at - start) as usize)
    }
}

// The number of two bytes at a place.
#[inline(always)]
fn two_of(bytes: &[u8], at: usize) -> u32
    requires { at + 2 ≤ length bytes.now }
    ensures value { result ≡ big_number 2 (drop at bytes.now) }
    ensures fits { result < 65536 }
{
    u32::from(BigEndian::read_u16(&bytes[at..]))
}

// The number of four bytes at a place.
#[inline(always)]
fn four_of(bytes: &[u8], at: usize) -> u32
    requires { at + 4 ≤ length bytes.now }
    ensures { result ≡ big_number 4 (drop at bytes.now) }
{
    BigEndian::read_u32(&bytes[at..])
}
