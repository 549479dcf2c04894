//! A new block, at the least address at which it fits.

ghost use Rattle.std.specs.Prelude.{◌≡◌, ◌≤◌, ◌<◌, ◌++◌, ◌∷◌, [], length};
ghost use Rattle.std.specs.Prelude.{take, drop, IsTrue, OnErr, IfOk, ◌==◌};
ghost use Rattle.vm_heap.specs.HeapMap.{in_order};
ghost use Rattle.vm_heap.specs.FirstFit as spec;
ghost use Rattle.vm_heap.specs.Allocation.{malloced, with_block};

use crate::block::{Block, MAX_SIZE};
use crate::heap::Heap;
use std::alloc::AllocError;

/// The least address from the start at which a block of the size fits, and its place among blocks.
fn first_fit(blocks: &[Block], start: u32, size: u32) -> (u32, usize)
    requires size { 0 < size }
    requires order { IsTrue (in_order start blocks.now) }
    ensures value { result.0 ≡ spec.first_fit start blocks.now size }
    ensures within { result.0 ≤ MAX_SIZE }
    ensures place { result.1 ≤ length blocks.now }
    ensures behind { (new : Block) → new.at ≡ result.0 →
        with_block new blocks.now ≡ take result.1 blocks.now ++ new ∷ drop result.1 blocks.now }
{
    let mut at = start;
    let mut index = 0;
    while index < blocks.len() && u64::from(at) + u64::from(size) > u64::from(blocks[index].at) {
        at = blocks[index].at + blocks[index].length;
        index += 1;
    }
    (at, index)
}

impl Heap {
    /// A new block of the size in bytes at the least address from the heap's start at which it fits
    /// between its neighbours; `end` is where memory ends, at which a heap that isn't active
    /// begins. None where the block would pass 16,777,216
    /// (Glulx 3.1.3, "Memory Allocation Heap").
    pub fn malloc(&mut self, size: u32, end: u32) -> Result<Option<u32>, AllocError>
        requires size { 0 < size }
        requires end { self.old.start ≡ 0 → (0 < end) × (end ≤ MAX_SIZE) }
        ensures ok { IfOk result (λ answer. malloced self.old size end ≡ (answer, self.new)) }
        ensures err { OnErr result (self.new ≡ self.old) }
    {
        let start = if self.start == 0 { end } else { self.start };
        let (at, index) = first_fit(&self.blocks, start, size);
        if u64::from(at) + u64::from(size) > u64::from(MAX_SIZE) {
            return Ok(None);
        }
        self.blocks.insert(index, Block { at, length: size })?;
        self.start = start;
        Ok(Some(at))
    }
}
