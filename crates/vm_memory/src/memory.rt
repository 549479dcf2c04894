//! Memory: what it is made of, and its size.

ghost use Rattle.std.specs.Prelude.{◌≡◌, ◌≤◌, ◌<◌, ◌+◌, length, nat_le, IfOk, IsOk, OnErr, OnOk};
ghost use Rattle.vm_memory.specs.OwnPages.{own_pages};
ghost use Rattle.vm_memory.specs.MemoryMap.{KeepsRom, memory_of, original, reset, resized};

use crate::laid::count_own;
use crate::table::{Row, copy_rows, cut};
use std::alloc::{AllocError, Global};
use std::marker::Model;

/// The greatest size of memory in bytes.
pub const MAX_SIZE: u32 = 16_777_216;

/// A story's memory, seen by contracts as its bytes and RAMSTART beside the original list
/// (Glulx 3.1.3, "The Memory Map"). It holds the pages of 256 bytes that were written, and reads
/// all others from the file.
#[derive(Drop)]
pub struct Memory<'i> {
    pub(crate) alloc: Global,
    pub(crate) rom: &'i [u8],
    endmem: u32,
    pub(crate) ramstart: u32,
    size: u32,
    pub(crate) rows: Vec<Row>,
}

impl<'i> Model for Memory<'i> {
    ghost use Rattle.std.specs.Prelude.{◌≤◌, ◌<◌, length};
    ghost use Rattle.vm_memory.specs.MemoryMap.{MemoryMap};
    ghost use Rattle.vm_memory.specs.Pages.{laid};

    ghost Value = { MemoryMap };

    ghost view = { λ m. record {
      bytes = laid m.rom.now m.ramstart m.rows.items m.size;
      ramstart = m.ramstart;
      rom = m.rom.now;
      endmem = m.endmem;
    } };

    ghost invariant = { λ m.
        (m.ramstart ≤ length m.rom.now) × ((length m.rom.now ≤ m.endmem) × ((0 < m.endmem)
        × ((m.endmem ≤ m.size) × (m.size ≤ 16777216)))) };
}

impl<'i> Memory<'i> {
    /// The memory with which a story begins: the file's bytes and then zeros up to ENDMEM. The
    /// three lengths are in bytes. It takes no memory of the host.
    #[tactic(auto, using(crate::proofs::LaidLemmas::laid_original, crate::proofs::OwnLemmas::own_original))]
    pub fn new(
        alloc: Global,
        rom: &'i [u8],
        ramstart: u32,
        endmem: u32,
    ) -> Result<Memory<'i>, AllocError>
        requires ram { ramstart ≤ length rom.now }
        requires extent { length rom.now ≤ endmem }
        requires some { 0 < endmem }
        requires limit { endmem ≤ MAX_SIZE }
        ensures value { IfOk result (λ m. m ≡ memory_of rom.now ramstart endmem) }
        ensures ok { IsOk result }
        ensures own { IfOk result (λ m. own_pages m ≡ 0) }
    {
        Ok(Memory {
            alloc,
            rom,
            endmem,
            ramstart,
            size: endmem,
            rows: Vec::new(alloc),
        })
    }

    /// Makes the size so many bytes, from ENDMEM on. New bytes are zero
    /// (Glulx 3.1.3, "Memory Map"). It takes no memory of the host.
    #[tactic(auto, using(crate::proofs::LaidLemmas::laid_cuts, crate::proofs::LaidLemmas::length_laid))]
    pub fn resize(&mut self, size: u32) -> Result<(), AllocError>
        requires least { self.old.endmem ≤ size }
        requires limit { size ≤ MAX_SIZE }
        ensures ok { OnOk result (self.new ≡ resized self.old size) }
        ensures err { OnErr result (self.new ≡ self.old) }
        ensures always { IsOk result }
    {
        cut(&mut self.rows, size.min(self.size));
        self.size = size;
        Ok(())
    }

    /// Makes it the original memory again (Glulx 3.1.3, "Game State").
    #[tactic(auto, using(crate::proofs::LaidLemmas::laid_original, crate::proofs::LaidLemmas::length_laid, crate::proofs::OwnLemmas::own_original))]
    pub fn reset(&mut self)
        ensures ok { self.new ≡ reset self.old }
        ensures size { length self.new.bytes ≡ self.new.endmem }
        ensures own { own_pages self.new ≡ 0 }
    {
        self.rows = Vec::new(self.alloc);
        self.size = self.endmem;
    }

    /// The original memory over the same file. It takes no memory of the host
    /// (Glulx 3.1.3, "Game State").
    #[tactic(auto, using(crate::proofs::LaidLemmas::laid_original, crate::proofs::OwnLemmas::own_original))]
    pub fn fresh(&self) -> Memory<'i>
        ensures value { result ≡ reset self.now }
        ensures own { own_pages result ≡ 0 }
    {
        Memory {
            alloc: self.alloc,
            rom: self.rom,
            endmem: self.endmem,
            ramstart: self.ramstart,
            size: self.endmem,
            rows: Vec::new(self.alloc),
        }
    }

    /// An equal memory over the same file. It holds copies of the held pages alone.
    #[tactic(auto, using(crate::proofs::LaidLemmas::laid_alike))]
    pub fn copy_of(&self, alloc: Global) -> Result<Memory<'i>, AllocError>
        ensures ok { IfOk result (λ m. m ≡ self.now) }
    {
        let rows = copy_rows(alloc, &self.rows)?;
        Ok(Memory {
            alloc,
            rom: self.rom,
            endmem: self.endmem,
            ramstart: self.ramstart,
            size: self.size,
            rows,
        })
    }

    /// The number of pages whose bytes differ from those of the original list.
    #[tactic(auto, using(crate::proofs::LaidLemmas::length_laid, crate::proofs::OwnLemmas::own_pages_is))]
    pub fn own_pages(&self) -> u32
        ensures value { result ≡ own_pages self.now }
    {
        count_own(self.rom, self.ramstart, &self.rows, self.size)
    }

    /// The size in bytes.
    #[tactic(auto, using(crate::proofs::LaidLemmas::length_laid))]
    pub fn size(&self) -> u32
        ensures value { result ≡ length self.now.bytes }
        ensures least { self.now.endmem ≤ result }
        ensures some { 0 < result }
        ensures within { result ≤ MAX_SIZE }
    {
        self.size
    }

    /// The address from which on memory can be written.
    #[inline(always)]
    pub fn ramstart(&self) -> u32
        ensures value { result ≡ self.now.ramstart }
    {
        self.ramstart
    }

    /// The original size in bytes.
    pub fn endmem(&self) -> u32
        ensures value { result ≡ self.now.endmem }
    {
        self.endmem
    }

    /// The file's bytes, up to EXTSTART.
    #[tactic(auto, using(crate::proofs::LaidLemmas::laid_rom))]
    pub fn rom(&self) -> &'i [u8]
        ensures value { result.now ≡ self.now.rom }
        ensures kept { KeepsRom self.now.ramstart self.now.rom self.now.bytes }
        ensures extent { length self.now.rom ≤ self.now.endmem }
    {
        self.rom
    }

    /// Whether so many bytes at the address lie in memory.
    #[inline(always)]
    #[tactic(auto, using(crate::proofs::LaidLemmas::length_laid))]
    pub(crate) fn is_inside(&self, at: u32, width: u32) -> bool
        ensures value { result ≡ nat_le (at + width) (length self.now.bytes) }
    {
        u64::from(at) + u64::from(width) <= u64::from(self.size)
    }
}
