//! Saved states.

ghost use Rattle.std.specs.Prelude.{◌≡◌, ◌≤◌, true, length, IfOk};
ghost use Rattle.vm_memory.specs.MemoryMap.{origin_of};
ghost use Rattle.vm_stack.specs.Saved.{SavedStack};
ghost use Rattle.vm_undo.specs.SavedState.{IsSavedWithin};

use crate::fits::{is_heap_over, is_memory_of, is_size};
use crate::lists::{Blocks, StackBytes};
use std::alloc::{AllocError, Global};
use vm_memory::Memory;
use vm_stack::{MAX_STACK, is_chain};

/// A saved state: memory, the bytes of the stack with a call stub on top, the blocks of the heap,
/// and where the heap starts, 0 without a block (Glulx 3.1.3, "Saving and Restoring").
#[derive(Drop)]
pub struct Saved<'i> {
    pub memory: Memory<'i>,
    pub stack: StackBytes,
    pub heap: Blocks,
    pub heap_start: u32,
}

impl<'i> Saved<'i> {
    /// An equal state.
    pub fn copy_of(&self, alloc: Global) -> Result<Saved<'i>, AllocError>
        ensures ok { IfOk result (λ s. s ≡ self.now) }
    {
        Ok(Saved {
            memory: self.memory.copy_of(alloc)?,
            stack: self.stack.copy_of(alloc)?,
            heap: self.heap.copy_of(alloc)?,
            heap_start: self.heap_start,
        })
    }

    /// Whether it is a saved state of the story whose memory this is, with a stack of at most so
    /// many bytes.
    pub fn is_of(&self, memory: &Memory<'_>, stack_size: u32) -> bool
        requires { stack_size ≤ MAX_STACK }
        ensures only { result ≡ true → IsSavedWithin (origin_of memory.now) stack_size self.now }
        ensures found { IsSavedWithin (origin_of memory.now) stack_size self.now → result ≡ true }
    {
        let (size, endmem) = (self.memory.size(), self.memory.endmem());
        is_memory_of(
            &self.memory,
            memory.rom(),
            memory.ramstart(),
            memory.endmem(),
        ) && is_size(endmem, size)
            && is_stack(self.stack.as_slice(), stack_size)
            && is_heap_over(endmem, size, self.heap_start, self.heap.as_slice())
    }
}

/// Whether the bytes are a saved stack, and at most so many.
pub(crate) fn is_stack(bytes: &[u8], most: u32) -> bool
    requires { most ≤ MAX_STACK }
    ensures only { result ≡ true → SavedStack bytes.now × (length bytes.now ≤ most) }
    ensures found { SavedStack bytes.now → length bytes.now ≤ most → result ≡ true }
{
    bytes.len() <= most as usize && is_chain(bytes)
}
