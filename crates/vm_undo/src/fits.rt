//! What memory may have: its size, its heap, its image.

ghost use Rattle.std.specs.Prelude.{◌≡◌, true};
ghost use Rattle.vm_heap.specs.HeapMap.{heap_end};
ghost use Rattle.vm_memory.specs.MemoryMap.{origin_of};
ghost use Rattle.vm_undo.specs.SavedState.{IsHeapOver, IsSize};

use vm_heap::{Block, is_heap};
use vm_memory::{MAX_SIZE, Memory};

/// Whether memory may have this size.
pub fn is_size(endmem: u32, size: u32) -> bool
    ensures only { result ≡ true → IsSize endmem size }
    ensures found { IsSize endmem size → result ≡ true }
{
    size % 256 == 0 && endmem <= size && size <= MAX_SIZE
}

/// Whether this is a heap over memory of this size.
pub fn is_heap_over(endmem: u32, size: u32, start: u32, blocks: &[Block]) -> bool
    ensures only { result ≡ true → IsHeapOver endmem size start blocks.now }
    ensures found { IsHeapOver endmem size start blocks.now → result ≡ true }
{
    if !is_heap(start, blocks) {
        return false;
    }
    if start == 0 {
        return true;
    }
    start % 256 == 0 && endmem <= start && u64::from(size) == end_of_heap(blocks)
}

// Where the last block ends, rounded up to 256.
fn end_of_heap(blocks: &[Block]) -> u64
    ensures { result ≡ heap_end blocks.now }
{
    match blocks {
        [] => 0,
        [.., last] => (u64::from(last.at) + u64::from(last.length) + 255) / 256 * 256,
    }
}

/// Whether this is memory of the image with these bytes, RAMSTART and ENDMEM.
pub fn is_memory_of(memory: &Memory<'_>, rom: &[u8], ramstart: u32, endmem: u32) -> bool
    ensures only { result ≡ true → origin_of memory.now
        ≡ record { ramstart = ramstart; rom = rom.now; endmem = endmem } }
    ensures found { origin_of memory.now
        ≡ record { ramstart = ramstart; rom = rom.now; endmem = endmem } → result ≡ true }
{
    memory.ramstart() == ramstart && memory.endmem() == endmem && memory.rom() == rom
}
