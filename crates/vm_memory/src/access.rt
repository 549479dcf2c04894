//! Reads and writes of numbers, most significant byte first, and of blocks.

ghost use Rattle.std.specs.Prelude.{◌≡◌, ◌≤◌, ◌<◌, ◌+◌, ◌&&◌, drop, length, replicate, take};
ghost use Rattle.std.specs.Prelude.{nat_le, Err, OnErr, OnOk, IfOk, IsOk};
ghost use Rattle.vm_memory.specs.MemoryMap.{KeepsMap, number_at};
ghost use Rattle.vm_memory.specs.OwnPages.{own_pages};
ghost use Rattle.vm_memory.specs.Access.{LeavesMemory, copied, copied_from, read, with_bytes};
ghost use Rattle.vm_memory.specs.Access.{written, zeroed};
ghost use Rattle.vm_memory.specs.declared.fault.MemStop.TheVariants.{NoMemory};

use crate::laid::{block_at, byte_at, four_apart, four_near, two_apart, two_near};
use crate::pages::{clear, write};
use crate::{MAX_SIZE, MemFault, MemStop, Memory};
use byteorder::{BigEndian, ByteOrder};
use std::alloc::{AllocError, Global};

impl<'i> Memory<'i> {
    /// The byte at the address; BadRead where it lies past memory's end.
    #[inline(always)]
    pub fn read1(&self, at: u32) -> Result<u32, MemFault>
        ensures value { result ≡ read 1 self.now at }
        ensures within { OnOk result (at + 1 ≤ MAX_SIZE) }
        ensures fits { IfOk result (λ x. x < 256) }
    {
        if self.is_front(at, 1) {
            return Ok(self.front_one(at));
        }
        if !self.is_inside(at, 1) {
            return Err(MemFault::BadRead(at));
        }
        Ok(self.one(at))
    }

    /// The number of two bytes at the address; BadRead where it passes memory's end.
    #[inline(always)]
    pub fn read2(&self, at: u32) -> Result<u32, MemFault>
        ensures value { result ≡ read 2 self.now at }
        ensures within { OnOk result (at + 2 ≤ MAX_SIZE) }
        ensures fits { IfOk result (λ x. x < 65536) }
    {
        if self.is_front(at, 2) {
            return Ok(self.front_two(at));
        }
        if !self.is_inside(at, 2) {
            return Err(MemFault::BadRead(at));
        }
        Ok(self.two(at))
    }

    /// The number of four bytes at the address; BadRead where it passes memory's end.
    #[inline(always)]
    pub fn read4(&self, at: u32) -> Result<u32, MemFault>
        ensures value { result ≡ read 4 self.now at }
        ensures within { OnOk result (at + 4 ≤ MAX_SIZE) }
    {
        if self.is_front(at, 4) {
            return Ok(self.front_four(at));
        }
        if !self.is_inside(at, 4) {
            return Err(MemFault::BadRead(at));
        }
        Ok(self.four(at))
    }

    // Whether so many bytes at the address lie below RAMSTART, where the file's stand.
    #[inline(always)]
    pub(crate) fn is_front(&self, at: u32, width: u32) -> bool
        ensures { result ≡ nat_le (at + width) self.now.ramstart }
    {
        u64::from(at) + u64::from(width) <= u64::from(self.ramstart)
    }

    // The byte below RAMSTART at the address.
    #[inline(always)]
    #[tactic(auto, using(crate::proofs::LaidLemmas::length_laid))]
    fn front_one(&self, at: u32) -> u32
        requires { at + 1 ≤ self.now.ramstart }
        ensures value { result ≡ number_at 1 self.now.bytes at }
        ensures inside { at + 1 ≤ length self.now.bytes }
        ensures within { at + 1 ≤ MAX_SIZE }
        ensures fits { result < 256 }
    {
        u32::from(self.rom[at as usize])
    }

    // The number of two bytes below RAMSTART at the address.
    #[inline(always)]
    #[tactic(auto, using(crate::proofs::LaidLemmas::length_laid))]
    fn front_two(&self, at: u32) -> u32
        requires { at + 2 ≤ self.now.ramstart }
        ensures value { result ≡ number_at 2 self.now.bytes at }
        ensures inside { at + 2 ≤ length self.now.bytes }
        ensures within { at + 2 ≤ MAX_SIZE }
        ensures fits { result < 65536 }
    {
        u32::from(BigEndian::read_u16(&self.rom[at as usize..]))
    }

    // The number of four bytes below RAMSTART at the address.
    #[inline(always)]
    #[tactic(auto, using(crate::proofs::LaidLemmas::length_laid))]
    fn front_four(&self, at: u32) -> u32
        requires { at + 4 ≤ self.now.ramstart }
        ensures value { result ≡ number_at 4 self.now.bytes at }
        ensures inside { at + 4 ≤ length self.now.bytes }
        ensures within { at + 4 ≤ MAX_SIZE }
    {
        BigEndian::read_u32(&self.rom[at as usize..])
    }

    // The byte at the address.
    #[tactic(auto, using(crate::proofs::LaidLemmas::length_laid, crate::proofs::LaidLemmas::number_of_one))]
    fn one(&self, at: u32) -> u32
        requires { at + 1 ≤ length self.now.bytes }
        ensures value { result ≡ number_at 1 self.now.bytes at }
        ensures within { at + 1 ≤ MAX_SIZE }
        ensures fits { result < 256 }
    {
        u32::from(byte_at(self.rom, self.ramstart, &self.rows, at))
    }

    // The number of two bytes at the address.
    #[inline(always)]
    #[tactic(auto, using(crate::proofs::LaidLemmas::length_laid))]
    fn two(&self, at: u32) -> u32
        requires { at + 2 ≤ length self.now.bytes }
        ensures value { result ≡ number_at 2 self.now.bytes at }
        ensures within { at + 2 ≤ MAX_SIZE }
        ensures fits { result < 65536 }
    {
        match two_near(self.rom, self.ramstart, &self.rows, at) {
            Some(value) => value,
            None => self.two_apart(at),
        }
    }

    // The same where the bytes stand apart. It is a call, so that the others stay short.
    #[cold]
    #[inline(never)]
    #[tactic(auto, using(crate::proofs::LaidLemmas::length_laid))]
    fn two_apart(&self, at: u32) -> u32
        requires { at + 2 ≤ length self.now.bytes }
        ensures value { result ≡ number_at 2 self.now.bytes at }
        ensures fits { result < 65536 }
    {
        two_apart(self.rom, self.ramstart, &self.rows, at)
    }

    // The number of four bytes at the address.
    #[inline(always)]
    #[tactic(auto, using(crate::proofs::LaidLemmas::length_laid))]
    fn four(&self, at: u32) -> u32
        requires { at + 4 ≤ length self.now.bytes }
        ensures value { result ≡ number_at 4 self.now.bytes at }
        ensures within { at + 4 ≤ MAX_SIZE }
    {
        match four_near(self.rom, self.ramstart, &self.rows, at) {
            Some(value) => value,
            None => self.four_apart(at),
        }
    }

    // The same where the bytes stand apart. It is a call, so that the others stay short.
    #[cold]
    #[inline(never)]
    #[tactic(auto, using(crate::proofs::LaidLemmas::length_laid))]
    fn four_apart(&self, at: u32) -> u32
        requires { at + 4 ≤ length self.now.bytes }
        ensures value { result ≡ number_at 4 self.now.bytes at }
    {
        four_apart(self.rom, self.ramstart, &self.rows, at)
    }

    /// Whether so many bytes at the address lie in RAM.
    #[inline(always)]
    fn is_writable(&self, at: u32, width: u32) -> bool
        ensures { result ≡ (nat_le self.now.ramstart at
            && nat_le (at + width) (length self.now.bytes)) }
    {
        self.ramstart() <= at && self.is_inside(at, width)
    }

    /// Writes bytes in RAM, or none of them.
    #[inline(always)]
    #[tactic(auto, using(crate::proofs::LaidLemmas::length_laid, crate::proofs::LaidLemmas::laid_puts, crate::proofs::LaidLemmas::laid_shows))]
    pub(crate) fn put(&mut self, at: u32, new: &[u8]) -> Result<(), AllocError>
        requires some { 0 < length new.now }
        requires ram { self.old.ramstart ≤ at }
        requires inside { at + length new.now ≤ length self.old.bytes }
        ensures ok { OnOk result (self.new ≡ with_bytes self.old at new.now) }
        ensures err { OnErr result (self.new ≡ self.old) }
    {
        write(self.alloc, self.rom, &mut self.rows, at, new)
    }

    // Makes so many bytes in RAM zero, or none of them.
    #[tactic(auto, using(crate::proofs::LaidLemmas::length_laid, crate::proofs::LaidLemmas::laid_zeros, crate::proofs::LaidLemmas::laid_shows))]
    fn clear(&mut self, at: u32, count: u32) -> Result<(), AllocError>
        requires some { 0 < count }
        requires ram { self.old.ramstart ≤ at }
        requires inside { at + count ≤ length self.old.bytes }
        ensures ok { OnOk result (self.new ≡ with_bytes self.old at (replicate count 0)) }
        ensures err { OnErr result (self.new ≡ self.old) }
    {
        clear(self.alloc, self.rom, &mut self.rows, at, count)
    }

    /// So many bytes at the address, in a vector of their own.
    #[tactic(auto, using(crate::proofs::LaidLemmas::length_laid))]
    pub(crate) fn block(&self, alloc: Global, at: u32, count: u32) -> Result<Vec<u8>, AllocError>
        requires { at + count ≤ length self.now.bytes }
        ensures { IfOk result (λ v. v.items ≡ take count (drop at self.now.bytes)) }
    {
        block_at(alloc, self.rom, self.ramstart, &self.rows, at, count)
    }

    /// Writes the low byte of the value; BadWrite below RAMSTART or past memory's end.
    #[inline(always)]
    #[tactic(auto, using(crate::proofs::OwnLemmas::own_put))]
    pub fn write1(&mut self, at: u32, value: u32) -> Result<(), MemStop>
        ensures value { LeavesMemory (written 1 self.old at value) self.new result }
        ensures want { result ≡ Err NoMemory → IsOk (written 1 self.old at value) }
        ensures err { OnErr result (self.new ≡ self.old) }
        ensures kept { KeepsMap self.old self.new }
        ensures own { own_pages self.new ≤ own_pages self.old + 2 }
    {
        if !self.is_writable(at, 1) {
            return Err(MemStop::Fault(MemFault::BadWrite(at)));
        }
        self.put(at, &[(value & 0xff) as u8])?;
        Ok(())
    }

    /// Writes the low two bytes of the value; BadWrite below RAMSTART or past memory's end.
    #[inline(always)]
    #[tactic(auto, using(crate::proofs::OwnLemmas::own_put))]
    pub fn write2(&mut self, at: u32, value: u32) -> Result<(), MemStop>
        ensures value { LeavesMemory (written 2 self.old at value) self.new result }
        ensures want { result ≡ Err NoMemory → IsOk (written 2 self.old at value) }
        ensures err { OnErr result (self.new ≡ self.old) }
        ensures kept { KeepsMap self.old self.new }
        ensures own { own_pages self.new ≤ own_pages self.old + 2 }
    {
        if !self.is_writable(at, 2) {
            return Err(MemStop::Fault(MemFault::BadWrite(at)));
        }
        self.put(at, &((value & 0xffff) as u16).to_be_bytes())?;
        Ok(())
    }

    /// Writes the value's four bytes; BadWrite below RAMSTART or past memory's end.
    #[inline(always)]
    #[tactic(auto, using(crate::proofs::OwnLemmas::own_put))]
    pub fn write4(&mut self, at: u32, value: u32) -> Result<(), MemStop>
        ensures value { LeavesMemory (written 4 self.old at value) self.new result }
        ensures want { result ≡ Err NoMemory → IsOk (written 4 self.old at value) }
        ensures err { OnErr result (self.new ≡ self.old) }
        ensures kept { KeepsMap self.old self.new }
        ensures own { own_pages self.new ≤ own_pages self.old + 2 }
    {
        if !self.is_writable(at, 4) {
            return Err(MemStop::Fault(MemFault::BadWrite(at)));
        }
        self.put(at, &value.to_be_bytes())?;
        Ok(())
    }

    /// Makes so many bytes zero; BadWrite where the block isn't all in RAM. An empty block is
    /// nowhere and does nothing (Glulx 3.1.3, "Block Copy and Clear").
    pub fn zero(&mut self, at: u32, count: u32) -> Result<(), MemStop>
        ensures value { LeavesMemory (zeroed self.old at count) self.new result }
        ensures err { OnErr result (self.new ≡ self.old) }
        ensures kept { KeepsMap self.old self.new }
    {
        if count == 0 {
            return Ok(());
        }
        if !self.is_writable(at, count) {
            return Err(MemStop::Fault(MemFault::BadWrite(at)));
        }
        self.clear(at, count)?;
        Ok(())
    }

    /// Copies so many bytes, which are those of before where the blocks overlap; BadRead where the
    /// first block passes memory's end, then BadWrite where the second isn't all in RAM. An empty
    /// block is nowhere and does nothing (Glulx 3.1.3, "Block Copy and Clear").
    pub fn copy(&mut self, from: u32, to: u32, count: u32) -> Result<(), MemStop>
        ensures value { LeavesMemory (copied self.old count from to) self.new result }
        ensures err { OnErr result (self.new ≡ self.old) }
        ensures kept { KeepsMap self.old self.new }
    {
        if count == 0 {
            return Ok(());
        }
        if !self.is_inside(from, count) {
            return Err(MemStop::Fault(MemFault::BadRead(from)));
        }
        if !self.is_writable(to, count) {
            return Err(MemStop::Fault(MemFault::BadWrite(to)));
        }
        let block = self.block(self.alloc, from, count)?;
        self.put(to, &block)?;
        Ok(())
    }

    /// Takes so many bytes at the address from another memory; BadRead where they pass its end,
    /// then BadWrite where they aren't all in RAM here. An empty block is nowhere and does nothing.
    pub fn copy_from(&mut self, other: &Memory<'_>, at: u32, size: u32) -> Result<(), MemStop>
        ensures value { LeavesMemory (copied_from self.old other.now at size) self.new result }
        ensures err { OnErr result (self.new ≡ self.old) }
        ensures kept { KeepsMap self.old self.new }
    {
        if size == 0 {
            return Ok(());
        }
        if !other.is_inside(at, size) {
            return Err(MemStop::Fault(MemFault::BadRead(at)));
        }
        if !self.is_writable(at, size) {
            return Err(MemStop::Fault(MemFault::BadWrite(at)));
        }
        let block = other.block(self.alloc, at, size)?;
        self.put(at, &block)?;
        Ok(())
    }
}
