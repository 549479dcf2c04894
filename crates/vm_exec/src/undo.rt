//! Saved states, restart and the protected range.

ghost use Rattle.std.specs.Prelude.{◌≡◌, ◌≤◌, ℕ, List, length, IsTrue, IfOk, OnOk, Ok};
ghost use Rattle.vm_exec.specs.Answer.{Changes, Does, MakesValue};
ghost use Rattle.vm_exec.specs.Machine.{IsFit, IsSaving, KeepsImage, StaysFit};
ghost use Rattle.vm_exec.specs.Rows.Undo as rows;
ghost use Rattle.vm_exec.specs.Rows.Work.{DoesAtNoCost};
ghost use Rattle.vm_exec.specs.Start.{IsOver};
ghost use Rattle.vm_heap.specs.HeapMap.{is_heap};
ghost use Rattle.vm_memory.specs.MemoryMap.{KeepsMap, origin_of, reset};
ghost use Rattle.vm_stack.specs.Chain.{EndsInOwnStub, IsReady};
ghost use Rattle.vm_undo.specs.SavedState.{IsSavedOf};

use crate::Machine;
use crate::function::stub_dest;
use crate::machine::begin;
use crate::step::{Done, Out};
use crate::trap::of_stack;
use std::alloc::{AllocError, Global};
use std::mem;
use vm_heap::Heap;
use vm_memory::{Memory, Trap};
use vm_operand::Dest;
use vm_undo::{Blocks, Kept, Saved, StackBytes, protect};

/// The range of so many bytes that restart and each restore leave as it is.
#[derive(Clone, Copy, Debug, PartialEq, Eq)]
pub struct Protection {
    pub start: u32,
    pub length: u32,
}

impl<'i> Machine<'i> {
    /// What is saved of the machine: its memory, its stack as it stands, and its heap. A state that
    /// can be restored has a call stub on top, as it has where a step asked for a save.
    pub fn saved(&self, alloc: Global) -> Result<Saved<'i>, AllocError>
        ensures ok { IfOk result (λ state. state ≡ rows.saved_state self.now) }
        ensures heap { IfOk result (λ state. IsTrue (is_heap state.heap_start state.heap)) }
        ensures size { IfOk result (λ state. length state.stack ≤ self.now.stack.limit) }
        ensures saving { IsSaving self.now
            → IfOk result (λ state. IsSavedOf (origin_of self.now.memory) state) }
    {
        Ok(Saved {
            memory: self.memory.copy_of(alloc)?,
            stack: StackBytes::of(self.stack.copy_bytes(alloc)?),
            heap: Blocks::of(Vec::from_slice(alloc, self.heap.blocks())?),
            heap_start: self.heap.start(),
        })
    }

    // The protected bytes are written into the other memory.
    fn spare(&self, memory: &mut Memory<'i>) -> Result<(), Trap>
        ensures does { Changes (Ok (rows.sparing self.now memory.old)) memory.new result }
        ensures kept { OnOk result (KeepsMap memory.old memory.new) }
    {
        protect(
            &self.memory,
            memory,
            self.protection.start,
            self.protection.length,
        )?;
        Ok(())
    }

    // The state in place of memory, stack and heap.
    fn put_state(&mut self, alloc: Global, state: Saved<'i>) -> Result<(), Trap>
        requires heap { IsTrue (is_heap state.heap_start state.heap) }
        ensures does { Changes (rows.with_state self.old state.entry) self.new result }
        ensures fit { IsFit self.old → IsSavedOf (origin_of self.old.memory) state.entry
            → OnOk result (IsFit self.new) }
        ensures own { OnOk result (EndsInOwnStub self.new.stack) }
    {
        let Saved {
            mut memory,
            stack,
            heap,
            heap_start,
        } = state;
        match self.stack.load(stack.as_slice()) {
            Ok(()) => {}
            Err(fault) => return Err(of_stack(fault)),
        }
        self.spare(&mut memory)?;
        self.memory = memory;
        match self.heap.load(alloc, heap_start, heap.as_slice()) {
            Ok(()) => Ok(()),
            Err(_) => Err(Trap::NoMemory),
        }
    }

    /// The story goes on at the stub on top, whose result is the value.
    pub(crate) fn come_back(&mut self, value: u32) -> Result<(), Trap>
        ensures does { Changes (rows.came_back self.old value) self.new result }
        ensures fit { IsFit self.old → EndsInOwnStub self.old.stack
            → OnOk result (IsFit self.new) }
    {
        let stub = self.stack.take_stub().map_err(of_stack)?;
        let to = stub_dest(stub)?;
        self.pc = stub.pc;
        self.store(to, value)
    }

    /// Restores the saved state, but for the protected bytes, which stay as they are: the stub on
    /// top of its stack is taken, and its result is -1. Fault 3 where the stack is longer than the
    /// image's size.
    pub fn resume(&mut self, alloc: Global, state: Saved<'i>) -> Result<(), Trap>
        requires heap { IsTrue (is_heap state.heap_start state.heap) }
        ensures does { Changes (rows.resumed self.old state.entry) self.new result }
        ensures fit { IsFit self.old → IsSavedOf (origin_of self.old.memory) state.entry
            → OnOk result (IsFit self.new) }
        ensures kept { IsFit self.old → IsSavedOf (origin_of self.old.memory) state.entry
            → OnOk result (KeepsImage self.old self.new) }
        ensures over { (image : List ℕ) → IsFit self.old
            → IsSavedOf (origin_of self.old.memory) state.entry → IsOver image self.old
            → OnOk result (IsOver image self.new) }
    {
        self.put_state(alloc, state)?;
        self.come_back(0xFFFF_FFFF)
    }

    // The state is kept, with the stub on top, unless it is too large. Memory is lent for it, and not
    // copied.
    fn keep_state(&mut self, alloc: Global) -> Result<Kept, Trap>
        requires fit { IsFit self.old }
        requires ready { IsReady self.old.stack }
        ensures does { Does (Ok (rows.state_kept self.old)) self.new result }
        ensures fit { OnOk result (IsFit self.new) }
        ensures own { OnOk result (EndsInOwnStub self.new.stack) }
    {
        let Ok(stack) = self.stack.copy_bytes(alloc) else {
            return Err(Trap::NoMemory);
        };
        let Ok(blocks) = Vec::from_slice(alloc, self.heap.blocks()) else {
            return Err(Trap::NoMemory);
        };
        let fresh = self.memory.fresh();
        let state = Saved {
            memory: mem::replace(&mut self.memory, fresh),
            stack: StackBytes::of(stack),
            heap: Blocks::of(blocks),
            heap_start: self.heap.start(),
        };
        let kept = self.undo.save(alloc, &state);
        let Saved { memory, .. } = state;
        self.memory = memory;
        match kept {
            Ok(kept) => Ok(kept),
            Err(_) => Err(Trap::NoMemory),
        }
    }

    pub(crate) fn save_undo(&mut self, alloc: Global, to: Dest) -> Result<(), Trap>
        requires { IsFit self.old }
        ensures does { Changes (rows.undo_saved self.old to) self.new result }
        ensures fit { OnOk result (IsFit self.new) }
    {
        self.push_stub_for(to)?;
        let kept = self.keep_state(alloc)?;
        self.come_back(answer_of(kept))
    }

    pub(crate) fn restore_undo(&mut self, alloc: Global, to: Dest) -> Result<(), Trap>
        ensures does { Changes (rows.undo_restored self.old to) self.new result }
        ensures fit { IsFit self.old → OnOk result (IsFit self.new) }
    {
        match self.undo.restore(alloc) {
            Ok(Some(state)) => self.resume(alloc, state),
            Ok(None) => self.store(to, 1),
            Err(_) => Err(Trap::NoMemory),
        }
    }

    pub(crate) fn has_undo(&mut self, to: Dest) -> Result<Done, Trap>
        ensures does { DoesAtNoCost (rows.tells_undo self.old to) self.new result }
        ensures fit { IsFit self.old → IfOk result (λ done. StaysFit self.new done.out) }
    {
        let answer = if self.undo.has() { 0 } else { 1 };
        self.put(to, answer)
    }

    pub(crate) fn discard_undo(&mut self) -> Result<Done, Trap>
        ensures does { DoesAtNoCost (rows.discards self.old) self.new result }
        ensures fit { IsFit self.old → IfOk result (λ done. StaysFit self.new done.out) }
    {
        self.undo.discard();
        self.tell(Out::Ran)
    }

    pub(crate) fn protect(&mut self, start: u32, length: u32) -> Result<Done, Trap>
        ensures does { DoesAtNoCost (rows.protects self.old start length) self.new result }
        ensures fit { IsFit self.old → IfOk result (λ done. StaysFit self.new done.out) }
    {
        self.protection = Protection { start, length };
        self.tell(Out::Ran)
    }

    // The original memory, but for the protected bytes. It takes no memory for pages that are dropped.
    fn original(&self) -> Result<Memory<'i>, Trap>
        ensures does { MakesValue (Ok (rows.sparing self.now (reset self.now.memory))) result }
        ensures origin { IfOk result (λ m. origin_of m ≡ origin_of self.now.memory) }
        ensures size { IfOk result (λ m. length m.bytes ≡ m.endmem) }
    {
        let mut memory = self.memory.fresh();
        self.spare(&mut memory)?;
        Ok(memory)
    }

    pub(crate) fn restart(&mut self, alloc: Global) -> Result<(), Trap>
        ensures does { Changes (rows.restarted self.old) self.new result }
        ensures fit { IsFit self.old → OnOk result (IsFit self.new) }
    {
        self.memory = self.original()?;
        self.heap = Heap::new(alloc);
        self.empty_stack()?;
        self.pc = begin(alloc, &self.memory, &mut self.stack, self.start_function)?;
        (self.mode, self.rock) = (0, 0);
        self.string_table = self.first_table;
        Ok(())
    }

    // A stack with nothing on it.
    fn empty_stack(&mut self) -> Result<(), Trap>
        ensures does { Changes
            (Ok (record self.old { stack = rows.stack_emptied self.old.stack }))
            self.new result }
    {
        self.stack.cut(0).map_err(of_stack)
    }
}

// What saveundo stores.
fn answer_of(kept: Kept) -> u32
    ensures { result ≡ rows.save_answer kept }
{
    match kept {
        Kept::Kept => 0,
        Kept::TooLarge => 1,
    }
}
