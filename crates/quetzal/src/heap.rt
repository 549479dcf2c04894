//! The heap's chunk (Glulx 3.1.3, "Saving and Restoring").

ghost use Rattle.std.specs.Prelude.{◌≡◌, ◌++◌, ◌+◌, ◌*◌, ◌/◌, ◌%◌, ◌≤◌, ◌<◌, ◌^◌, length, drop};
ghost use Rattle.std.specs.Prelude.{Some, None, OnOk, IfOk, MatchOption};
ghost use Rattle.vm_heap.specs.HeapMap.{block_end, rounded_up};
ghost use Rattle.quetzal.specs.Chunks.{now_of};
ghost use Rattle.quetzal.specs.Heap as chunk;
ghost use Rattle.quetzal.specs.Fault.{GivesUnlessNoMemory};
ghost use Rattle.quetzal.specs.Heap.{block_bytes, blocks_in, by_address, heap_in, heap_of};
ghost use Rattle.quetzal.specs.Heap.{is_without, listed_in, print_heap};

use crate::fault::SaveFault;
use crate::form::word;
use std::alloc::{AllocError, Global};
use vm_heap::{Block, is_heap};
use vm_undo::Blocks;

/// The heap of a save: its start, 0 without a block, and its blocks by their addresses.
#[derive(Drop)]
pub struct SavedHeap {
    pub start: u32,
    pub blocks: Blocks,
}

/// The heap in a chunk's contents, for a memory of this size in bytes. BadHeap where it is none
/// that this memory may have.
pub fn read_heap(
    alloc: Global,
    endmem: u32,
    size: u32,
    contents: Option<&[u8]>,
) -> Result<SavedHeap, SaveFault>
    ensures exact { GivesUnlessNoMemory (λ h. h) result
        (heap_in endmem size (now_of contents.entry)) }
{
    match listed(contents) {
        Some(Pairs { start, pairs }) => ordered(alloc, endmem, size, start, pairs),
        None => Err(SaveFault::BadHeap),
    }
}

/// A heap's start and the bytes of its pairs.
struct Pairs<'a> {
    start: u32,
    pairs: &'a [u8],
}

// What a chunk lists: nothing is no heap, and so are 0 and 0.
#[tactic(auto, unfolding(crate::specs::Heap::blocks_in))]
fn listed(contents: Option<&[u8]>) -> Option<Pairs<'_>>
    ensures { MatchOption result
        (chunk.heap_listed (now_of contents.entry) ≡ None)
        (λ l. (length l.pairs.now % 8 ≡ 0)
        × (chunk.heap_listed (now_of contents.entry)
        ≡ Some (l.start, blocks_in (length l.pairs.now / 8) l.pairs.now))) }
{
    match contents {
        None => Some(Pairs {
            start: 0,
            pairs: &[],
        }),
        Some(bytes) => listed_in(bytes),
    }
}

#[tactic(auto, unfolding(crate::specs::Heap::blocks_in))]
fn listed_in(bytes: &[u8]) -> Option<Pairs<'_>>
    ensures { MatchOption result
        (chunk.listed_in bytes.now ≡ None)
        (λ l. (length l.pairs.now % 8 ≡ 0)
        × (chunk.listed_in bytes.now
        ≡ Some (l.start, blocks_in (length l.pairs.now / 8) l.pairs.now))) }
{
    if bytes.is_empty() {
        return Some(Pairs {
            start: 0,
            pairs: &[],
        });
    }
    if bytes.len() < 8 {
        return None;
    }
    let start = word(bytes, 0);
    let count = word(bytes, 4);
    if start == 0 && count == 0 {
        return Some(Pairs {
            start: 0,
            pairs: &[],
        });
    }
    if bytes.len() != 8 + 8 * count as usize {
        return None;
    }
    Some(Pairs {
        start,
        pairs: &bytes[8..],
    })
}

// The blocks of so many pairs, by their addresses.
fn ordered(
    alloc: Global,
    endmem: u32,
    size: u32,
    start: u32,
    pairs: &[u8],
) -> Result<SavedHeap, SaveFault>
    requires { length pairs.now % 8 ≡ 0 }
    ensures { GivesUnlessNoMemory (λ h. h) result (heap_of endmem size start
        (by_address (blocks_in (length pairs.now / 8) pairs.now))) }
{
    let mut blocks = blocks_of(alloc, pairs)?;
    blocks.sort_by_key(|block| block.at)?;
    if fits(endmem, size, start, blocks.as_slice()) {
        Ok(SavedHeap {
            start,
            blocks: Blocks::of(blocks),
        })
    } else {
        Err(SaveFault::BadHeap)
    }
}

// The pairs as blocks.
#[tactic(auto, unfolding(crate::specs::Heap::blocks_in))]
fn blocks_of(alloc: Global, pairs: &[u8]) -> Result<Vec<Block>, AllocError>
    requires { length pairs.now % 8 ≡ 0 }
    ensures { IfOk result (λ v. v.items ≡ blocks_in (length pairs.now / 8) pairs.now) }
{
    let mut blocks = Vec::new(alloc);
    for index in 0..pairs.len() / 8 {
        blocks.push(Block {
            at: word(pairs, 8 * index),
            length: word(pairs, 8 * index + 4),
        })?;
    }
    Ok(blocks)
}

// Whether a memory of this size may have this heap.
fn fits(endmem: u32, size: u32, start: u32, blocks: &[Block]) -> bool
    ensures { result ≡ chunk.heap_fits endmem size start blocks.now }
{
    match blocks {
        [] => start == 0,
        [.., last] => is_heap(start, blocks) && is_placed(endmem, size, start, last),
    }
}

// A heap starts at a page from ENDMEM on, and memory ends behind its last block.
fn is_placed(endmem: u32, size: u32, start: u32, last: &Block) -> bool
    ensures { result ≡ chunk.is_placed endmem size start (rounded_up (block_end last.now)) }
{
    let end = u64::from(last.at) + u64::from(last.length);
    start % 256 == 0 && endmem <= start && u64::from(size) == (end + 255) / 256 * 256
}

/// The contents of the chunk that is written of a heap, where it has a block.
pub fn write_heap(
    alloc: Global,
    start: u32,
    blocks: &[Block],
) -> Result<Option<Vec<u8>>, AllocError>
    requires { length blocks.now < 2 ^ 32 }
    ensures { IfOk result (λ contents. chunk.written_bytes contents ≡ print_heap start blocks.now) }
{
    if blocks.is_empty() {
        return Ok(None);
    }
    let mut out = Vec::new(alloc);
    out.extend_from_slice(&start.to_be_bytes())?;
    out.extend_from_slice(&(blocks.len() as u32).to_be_bytes())?;
    push_blocks(&mut out, blocks)?;
    Ok(Some(out))
}

fn push_blocks(out: &mut Vec<u8>, blocks: &[Block]) -> Result<(), AllocError>
    ensures { OnOk result (out.new.items ≡ out.old.items ++ block_bytes blocks.now) }
{
    for block in blocks {
        out.extend_from_slice(&block.at.to_be_bytes())?;
        out.extend_from_slice(&block.length.to_be_bytes())?;
    }
    Ok(())
}
