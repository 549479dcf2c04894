//! A block that is given back.

ghost use Rattle.std.specs.Prelude.{◌≡◌, ◌<◌, ◌+◌, ◌++◌, true, false, length};
ghost use Rattle.std.specs.Prelude.{take, drop, IfSome, OnSome, IfNone};
ghost use Rattle.vm_heap.specs.Allocation.{freed, begins, blocks_without, LeavesHeap};

use crate::block::Block;
use crate::fault::HeapFault;
use crate::heap::Heap;

/// The place among blocks of the one that begins at the address.
fn place_of(blocks: &[Block], at: u32) -> Option<usize>
    ensures found { OnSome result (begins at blocks.now ≡ true) }
    ensures none { IfNone result (begins at blocks.now ≡ false) }
    ensures within { IfSome result (λ i. i < length blocks.now) }
    ensures others { IfSome result (λ i.
        blocks_without at blocks.now ≡ take i blocks.now ++ drop (i + 1) blocks.now) }
{
    for index in 0..blocks.len() {
        if blocks[index].at == at {
            return Some(index);
        }
    }
    None
}

impl Heap {
    /// Frees the block that begins at the address; BadBlock exactly where none does. Without a
    /// block the heap isn't active (Glulx 3.1.3, "Memory Allocation Heap").
    pub fn free(&mut self, at: u32) -> Result<(), HeapFault>
        ensures value { LeavesHeap (freed self.old at) self.old self.new result }
    {
        match place_of(&self.blocks, at) {
            Some(index) => {
                self.blocks.remove(index);
                if self.blocks.is_empty() {
                    self.start = 0;
                }
                Ok(())
            }
            None => Err(HeapFault::BadBlock(at)),
        }
    }
}
