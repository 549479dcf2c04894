//! Blocks, and which a heap may have.

ghost use Rattle.std.specs.Prelude.{◌≡◌, ◌≤◌};
ghost use Rattle.vm_heap.specs.HeapMap as spec;

/// Where memory ends at most, in bytes.
pub const MAX_SIZE: u32 = 16_777_216;

/// A block of the heap: its address and its length in bytes.
#[derive(Clone, Copy, Debug, PartialEq, Eq)]
pub struct Block {
    pub at: u32,
    pub length: u32,
}

/// Whether the blocks are in order from the address on, none of them empty or past 16,777,216.
fn in_order(start: u32, blocks: &[Block]) -> bool
    ensures { result ≡ spec.in_order start blocks.now }
{
    let mut from = u64::from(start);
    for block in blocks {
        if u64::from(block.at) < from || block.length == 0 {
            return false;
        }
        from = u64::from(block.at) + u64::from(block.length);
    }
    from <= u64::from(MAX_SIZE)
}

/// Whether these are a heap's start and its blocks: blocks in order from the start, none empty,
/// none past 16,777,216; and a start of 0 exactly without a block.
pub fn is_heap(start: u32, blocks: &[Block]) -> bool
    ensures value { result ≡ spec.is_heap start blocks.now }
{
    if blocks.is_empty() {
        start == 0
    } else {
        start > 0 && in_order(start, blocks)
    }
}
