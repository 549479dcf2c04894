//! The size of memory, and the heap.

ghost use Rattle.std.specs.Prelude.{◌≡◌, ◌≤◌, ◌<◌, ◌/◌, max, length, IsTrue, IfOk, OnOk, Ok};
ghost use Rattle.vm_exec.specs.Answer.{Changes, Does};
ghost use Rattle.vm_exec.specs.Machine.{IsFit, IsMapped, WaitsForNoSave, StaysFit};
ghost use Rattle.vm_exec.specs.Rows.Heap as rows;
ghost use Rattle.vm_exec.specs.declared.text.Text.TheVariants.{Off};
ghost use Rattle.vm_exec.specs.Rows.Work.{Costs, budgeted};
ghost use Rattle.vm_stack.specs.Chain.{Chain, HasFrame};
ghost use Rattle.vm_heap.specs.HeapMap.{heap_end, is_heap};
ghost use Rattle.vm_memory.specs.MemoryMap.{origin_of, resized};

use crate::Machine;
use crate::step::{Done, Out};
use crate::trap::{BAD_BLOCK, BAD_SIZE, charge};
use vm_memory::{MAX_SIZE, Trap};
use vm_operand::Dest;

impl<'i> Machine<'i> {
    // Memory of another size.
    fn resize(&mut self, size: u32) -> Result<(), Trap>
        requires least { self.old.memory.endmem ≤ size }
        requires limit { size ≤ MAX_SIZE }
        ensures does { Changes
            (Ok (record self.old { memory = resized self.old.memory size }))
            self.new result }
    {
        match self.memory.resize(size) {
            Ok(()) => Ok(()),
            Err(_) => Err(Trap::NoMemory),
        }
    }

    // Memory that ends here, but not before ENDMEM.
    fn end_at(&mut self, end: u32) -> Result<(), Trap>
        requires { end ≤ MAX_SIZE }
        ensures does { Changes
            (Ok (rows.with_heap self.old self.old.heap end))
            self.new result }
        ensures fit { IsMapped (origin_of self.old.memory) (max self.old.memory.endmem end)
            self.old.heap self.old.undo
            → Chain self.old.stack → HasFrame self.old.stack
            → WaitsForNoSave self.old.waiting → self.old.text ≡ Off
            → OnOk result (IsFit self.new) }
    {
        let least = self.memory.endmem();
        let _size = self.memory.size();
        self.resize(least.max(end))
    }

    // The answer of setmemsize.
    fn set_size(&mut self, size: u32, to: Dest) -> Result<(), Trap>
        ensures does { Changes (rows.size_set self.old size to) self.new result }
        ensures fit { IsFit self.old → OnOk result (IsFit self.new) }
    {
        if self.heap.active() || size % 256 != 0 || size < self.memory.endmem() {
            return Err(BAD_SIZE);
        }
        if size > MAX_SIZE {
            return self.store(to, 1);
        }
        self.resize(size)?;
        self.store(to, 0)
    }

    pub(crate) fn setmemsize(&mut self, size: u32, to: Dest, left: u64) -> Result<Done, Trap>
        ensures does { Does
            (budgeted left (Costs (size / 256) (rows.resizes self.old size to)))
            self.new result }
        ensures fit { IsFit self.old → IfOk result (λ done. StaysFit self.new done.out) }
        ensures within { IfOk result (λ done. done.cost ≤ left) }
    {
        let cost = charge(u64::from(size / 256), left)?;
        self.set_size(size, to)?;
        Ok(Done {
            out: Out::Ran,
            cost,
        })
    }

    // A new block, and memory that ends where the last block does; 0 where it would be too great.
    fn allocate(&mut self, size: u32) -> Result<u32, Trap>
        requires { 0 < size }
        ensures does { Does (Ok (rows.allocated self.old size)) self.new result }
        ensures fit { IsFit self.old → OnOk result (IsFit self.new) }
    {
        let end = self.memory.size();
        match self.heap.malloc(size, end) {
            Ok(Some(at)) => {
                let end = self.heap.end();
                self.end_at(end)?;
                Ok(at)
            }
            Ok(None) => Ok(0),
            Err(_) => Err(Trap::NoMemory),
        }
    }

    pub(crate) fn malloc(&mut self, size: u32, to: Dest, left: u64) -> Result<Done, Trap>
        ensures does { Does
            (budgeted left (Costs (length self.old.heap.blocks) (rows.mallocs self.old size to)))
            self.new result }
        ensures fit { IsFit self.old → IfOk result (λ done. StaysFit self.new done.out) }
        ensures within { IfOk result (λ done. done.cost ≤ left) }
    {
        let cost = charge(self.heap.blocks().len() as u64, left)?;
        if size == 0 {
            return Err(BAD_SIZE);
        }
        let at = self.allocate(size)?;
        self.store(to, at)?;
        Ok(Done {
            out: Out::Ran,
            cost,
        })
    }

    // Where memory ends: behind the last block, or where the heap began that isn't active any more.
    fn memory_end(&self, start: u32) -> u32
        requires { start ≤ MAX_SIZE }
        ensures value { result ≡ rows.memory_end start self.now.heap }
        ensures within { result ≤ MAX_SIZE }
        ensures heap { IsTrue (is_heap self.now.heap.start self.now.heap.blocks) }
        ensures limit { heap_end self.now.heap.blocks ≤ MAX_SIZE }
    {
        let end = self.heap.end();
        if self.heap.active() { end } else { start }
    }

    // A block less, and memory that ends where the last block does, or where the heap began.
    fn release(&mut self, at: u32) -> Result<(), Trap>
        ensures does { Changes (rows.freed_at self.old at) self.new result }
        ensures fit { IsFit self.old → OnOk result (IsFit self.new) }
    {
        let start = self.heap.start();
        match self.heap.free(at) {
            Ok(()) => {
                let end = self.memory_end(start);
                self.end_at(end)
            }
            Err(_) => Err(BAD_BLOCK),
        }
    }

    pub(crate) fn mfree(&mut self, at: u32, left: u64) -> Result<Done, Trap>
        ensures does { Does
            (budgeted left (Costs (length self.old.heap.blocks) (rows.frees self.old at)))
            self.new result }
        ensures fit { IsFit self.old → IfOk result (λ done. StaysFit self.new done.out) }
        ensures within { IfOk result (λ done. done.cost ≤ left) }
    {
        let cost = charge(self.heap.blocks().len() as u64, left)?;
        self.release(at)?;
        Ok(Done {
            out: Out::Ran,
            cost,
        })
    }
}
