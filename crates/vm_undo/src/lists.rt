//! The lists of a saved state: the bytes of a stack, and the blocks of a heap.

ghost use Rattle.std.specs.Prelude.{◌≡◌, List, ℕ, IfOk};
ghost use Rattle.vm_heap.specs.declared.block.Block.{Block};

use std::alloc::{AllocError, Global};
use std::marker::Model;
use vm_heap::Block;

/// The bytes of a stack, seen by contracts as their list.
#[derive(Drop)]
pub struct StackBytes {
    list: Vec<u8>,
}

impl Model for StackBytes {
    ghost Value = { List ℕ };

    ghost view = { λ b. b.list.items };
}

impl StackBytes {
    /// The bytes of the vector.
    pub fn of(list: Vec<u8>) -> StackBytes
        ensures value { result ≡ list.items }
    {
        StackBytes { list }
    }

    /// The bytes, lent.
    pub fn as_slice(&self) -> &[u8]
        ensures value { result.now ≡ self.now }
    {
        self.list.as_slice()
    }

    /// An equal list.
    pub fn copy_of(&self, alloc: Global) -> Result<StackBytes, AllocError>
        ensures ok { IfOk result (λ b. b ≡ self.now) }
    {
        Ok(StackBytes {
            list: Vec::from_slice(alloc, self.as_slice())?,
        })
    }
}

/// The blocks of a heap by their addresses, seen by contracts as their list.
#[derive(Drop)]
pub struct Blocks {
    list: Vec<Block>,
}

impl Model for Blocks {
    ghost use Rattle.std.specs.Prelude.{List};
    ghost use Rattle.vm_heap.specs.declared.block.Block.{Block};

    ghost Value = { List Block };

    ghost view = { λ b. b.list.items };
}

impl Blocks {
    /// The blocks of the vector.
    pub fn of(list: Vec<Block>) -> Blocks
        ensures value { result ≡ list.items }
    {
        Blocks { list }
    }

    /// The blocks, lent.
    pub fn as_slice(&self) -> &[Block]
        ensures value { result.now ≡ self.now }
    {
        self.list.as_slice()
    }

    /// An equal list.
    pub fn copy_of(&self, alloc: Global) -> Result<Blocks, AllocError>
        ensures ok { IfOk result (λ b. b ≡ self.now) }
    {
        Ok(Blocks {
            list: Vec::from_slice(alloc, self.as_slice())?,
        })
    }
}
