//! The header's words.

ghost use Rattle.std.specs.Prelude.{◌≡◌, ◌≤◌, ◌+◌, length};
ghost use Rattle.glulx_image.specs.Header as header;
ghost use Rattle.glulx_image.specs.Header.{IsLaidOut};

use crate::Image;
use byteorder::{BigEndian, ByteOrder};

/// The word of four bytes at the place.
pub(crate) fn word(bytes: &[u8], at: usize) -> u32
    requires { at + 4 ≤ length bytes.now }
    ensures { result ≡ header.word bytes.now at }
{
    BigEndian::read_u32(&bytes[at..])
}

impl<'i> Image<'i> {
    /// The version of Glulx, as 0x00030103 for 3.1.3.
    pub fn version(&self) -> u32
        ensures value { result ≡ header.version self.now }
    {
        word(self.bytes(), 4)
    }

    /// The address from which on memory can be written.
    pub fn ramstart(&self) -> u32
        ensures value { result ≡ header.ramstart self.now }
        ensures kept { IsLaidOut self.now }
    {
        word(self.bytes(), 8)
    }

    /// The end of the bytes that the file gives to memory.
    pub fn extstart(&self) -> u32
        ensures value { result ≡ header.extstart self.now }
        ensures kept { IsLaidOut self.now }
    {
        word(self.bytes(), 12)
    }

    /// The size of memory in bytes as the story begins.
    pub fn endmem(&self) -> u32
        ensures value { result ≡ header.endmem self.now }
        ensures kept { IsLaidOut self.now }
    {
        word(self.bytes(), 16)
    }

    /// The size of the stack in bytes.
    pub fn stack_size(&self) -> u32
        ensures value { result ≡ header.stack_size self.now }
        ensures kept { IsLaidOut self.now }
    {
        word(self.bytes(), 20)
    }

    /// The address of the function with which the story begins.
    pub fn start_function(&self) -> u32
        ensures value { result ≡ header.start_function self.now }
    {
        word(self.bytes(), 24)
    }

    /// The address of the first string-decoding table, or 0.
    pub fn string_table(&self) -> u32
        ensures value { result ≡ header.string_table self.now }
    {
        word(self.bytes(), 28)
    }

    /// The sum that the file's words are to have, modulo 2^32.
    pub fn checksum(&self) -> u32
        ensures value { result ≡ header.checksum self.now }
    {
        word(self.bytes(), 32)
    }
}
