//! RAM as a whole, as saves have it.

ghost use Rattle.std.specs.Prelude.{◌≡◌, ◌+◌, length, IfOk, OnErr, OnOk};
ghost use Rattle.vm_memory.specs.MemoryMap.{ram_of, with_ram};

use crate::Memory;
use std::alloc::{AllocError, Global};

impl Memory<'_> {
    /// The bytes from RAMSTART on, in a vector of their own (Glulx 3.1.3, "Saving and Restoring").
    #[tactic(auto, using(crate::proofs::LaidLemmas::ram_is))]
    pub fn copy_ram(&self, alloc: Global) -> Result<Vec<u8>, AllocError>
        ensures ok { IfOk result (λ v. v.items ≡ ram_of self.now) }
    {
        self.block(alloc, self.ramstart, self.size() - self.ramstart)
    }

    /// Takes the bytes in place of those from RAMSTART on, which are as many.
    #[tactic(auto, using(crate::proofs::LaidLemmas::with_ram_is, crate::proofs::LaidLemmas::with_no_ram))]
    pub fn load_ram(&mut self, ram: &[u8]) -> Result<(), AllocError>
        requires size { self.old.ramstart + length ram.now ≡ length self.old.bytes }
        ensures ok { OnOk result (self.new ≡ with_ram self.old ram.now) }
        ensures err { OnErr result (self.new ≡ self.old) }
    {
        if ram.is_empty() {
            return Ok(());
        }
        self.put(self.ramstart, ram)
    }
}
