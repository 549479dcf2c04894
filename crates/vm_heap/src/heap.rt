//! The heap: what it is made of, and what it tells.

ghost use Rattle.std.specs.Prelude.{◌≡◌, ◌≤◌, [], OnOk, OnErr, IsTrue, not, ◌==◌};
ghost use Rattle.vm_heap.specs.HeapMap.{HeapMap, heap_end};
ghost use Rattle.vm_heap.specs.HeapMap as spec;

use crate::block::{Block, MAX_SIZE};
use std::alloc::{AllocError, Global};
use std::marker::Model;

/// A story's heap, seen by contracts as its start and its blocks
/// (Glulx 3.1.3, "Memory Allocation Heap").
#[derive(Drop)]
pub struct Heap {
    pub(crate) start: u32,
    pub(crate) blocks: Vec<Block>,
}

impl Model for Heap {
    ghost use Rattle.std.specs.Prelude.{IsTrue};
    ghost use Rattle.vm_heap.specs.HeapMap.{HeapMap, is_heap};

    ghost Value = { HeapMap };

    ghost view = { λ h. record { start = h.start; blocks = h.blocks.items } };

    ghost invariant = { λ h. IsTrue (is_heap h.start h.blocks.items) };
}

impl Heap {
    /// A heap without a block, which isn't active.
    pub fn new(alloc: Global) -> Heap
        ensures value { result ≡ record { start = 0; blocks = [] } }
    {
        Heap {
            start: 0,
            blocks: Vec::new(alloc),
        }
    }

    /// Makes it the heap of this start and these blocks, as `is_heap` tells that there may be one.
    pub fn load(&mut self, alloc: Global, start: u32, blocks: &[Block]) -> Result<(), AllocError>
        requires { IsTrue (spec.is_heap start blocks.now) }
        ensures ok { OnOk result (self.new ≡ record { start = start; blocks = blocks.now }) }
        ensures err { OnErr result (self.new ≡ self.old) }
    {
        let blocks = Vec::from_slice(alloc, blocks)?;
        *self = Heap { start, blocks };
        Ok(())
    }

    /// Whether it has a block.
    pub fn active(&self) -> bool
        ensures value { result ≡ not (self.now.start == 0) }
    {
        self.start != 0
    }

    /// Where it begins, or 0 where it isn't active.
    pub fn start(&self) -> u32
        ensures value { result ≡ self.now.start }
        ensures within { result ≤ MAX_SIZE }
    {
        self.start
    }

    /// Its blocks by their addresses.
    pub fn blocks(&self) -> &[Block]
        ensures value { result.now ≡ self.now.blocks }
        ensures heap { IsTrue (spec.is_heap self.now.start self.now.blocks) }
    {
        &self.blocks
    }

    /// Where memory ends while it is active: the last block's end rounded up to 256; 0 where it
    /// isn't active.
    pub fn end(&self) -> u32
        ensures value { result ≡ heap_end self.now.blocks }
        ensures within { result ≤ MAX_SIZE }
        ensures heap { IsTrue (spec.is_heap self.now.start self.now.blocks) }
    {
        match self.blocks.as_slice() {
            [] => 0,
            [.., last] => (last.at + last.length + 255) / 256 * 256,
        }
    }
}
