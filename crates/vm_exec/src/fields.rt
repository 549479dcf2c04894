//! The fields of a machine that waits for a result, and the machine that they make.

ghost use Rattle.std.specs.Prelude.{◌≡◌, ◌≤◌, true, length, IfNone, IfSome, IsSome};
ghost use Rattle.vm_exec.specs.Fields as spec;
ghost use Rattle.vm_exec.specs.Fields.{machine_of};
ghost use Rattle.vm_exec.specs.Machine.{IsFit};
ghost use Rattle.vm_exec.specs.Start.{IsOver, image_memory};
ghost use Rattle.glulx_image.specs.Header.{stack_size};
ghost use Rattle.vm_memory.specs.MemoryMap.{origin_of};
ghost use Rattle.vm_stack.specs.Chain.{Chain, HasFrame};
ghost use Rattle.vm_undo.specs.SavedState.{IsHeapOver, IsSize};
ghost use Rattle.vm_undo.specs.UndoList.{KeepLimits, KeepsOf};

use crate::Machine;
use crate::random::Random;
use crate::step::Waiting;
use crate::text::Text;
use crate::undo::Protection;
use glulx_image::Image;
use vm_heap::Heap;
use vm_memory::Memory;
use vm_operand::Dest;
use vm_stack::Stack;
use vm_undo::{Undo, is_heap_over, is_memory_of, is_size};

/// What a machine that waits for a result has beside what it has of its image.
#[derive(Drop)]
pub struct MachineFields<'i> {
    pub memory: Memory<'i>,
    pub stack: Stack,
    pub pc: u32,
    /// The I/O system: 0 drops output, 1 calls the function at the rock, 2 is Glk.
    pub mode: u32,
    pub rock: u32,
    pub string_table: u32,
    /// Where the result goes.
    pub store: Dest,
    pub heap: Heap,
    pub undo: Undo<'i>,
    pub protection: Protection,
    pub random: Random,
}

impl<'i> MachineFields<'i> {
    // Whether memory is of the image.
    fn is_of(&self, image: &Image<'_>) -> bool
        ensures only { result ≡ true
            → origin_of self.now.memory ≡ origin_of (image_memory image.now) }
        ensures found { origin_of self.now.memory ≡ origin_of (image_memory image.now)
            → result ≡ true }
    {
        let rom = &image.bytes()[..image.extstart() as usize];
        is_memory_of(&self.memory, rom, image.ramstart(), image.endmem())
    }

    // Whether memory has a size that it may have.
    fn has_size(&self) -> bool
        ensures only { result ≡ true
            → IsSize self.now.memory.endmem (length self.now.memory.bytes) }
        ensures found { IsSize self.now.memory.endmem (length self.now.memory.bytes)
            → result ≡ true }
    {
        is_size(self.memory.endmem(), self.memory.size())
    }

    // Whether the heap is one over memory.
    fn has_heap(&self) -> bool
        ensures only { result ≡ true
            → IsHeapOver self.now.memory.endmem (length self.now.memory.bytes)
            self.now.heap.start self.now.heap.blocks }
        ensures found { IsHeapOver self.now.memory.endmem (length self.now.memory.bytes)
            self.now.heap.start self.now.heap.blocks → result ≡ true }
    {
        let (endmem, size) = (self.memory.endmem(), self.memory.size());
        is_heap_over(endmem, size, self.heap.start(), self.heap.blocks())
    }

    // Whether the stack has the image's size.
    fn has_stack_size(&self, image: &Image<'_>) -> bool
        ensures only { result ≡ true → self.now.stack.limit ≡ stack_size image.now }
        ensures found { self.now.stack.limit ≡ stack_size image.now → result ≡ true }
    {
        self.stack.size() == image.stack_size() as usize
    }

    // Whether what undo keeps is of the story.
    fn has_undo(&self, image: &Image<'_>) -> bool
        ensures only { result ≡ true
            → KeepsOf (origin_of self.now.memory) (stack_size image.now) self.now.undo }
        ensures found { KeepsOf (origin_of self.now.memory) (stack_size image.now) self.now.undo
            → result ≡ true }
        ensures within { KeepLimits self.now.undo.states }
    {
        let _any = self.undo.has();
        self.undo.are_of(&self.memory, image.stack_size())
    }

    // Whether a machine of the story may have them.
    fn are_fit(&self, image: &Image<'_>) -> bool
        ensures only { result ≡ true → IsFit (machine_of image.now self.now)
            × IsOver image.now (machine_of image.now self.now) }
        ensures found { IsFit (machine_of image.now self.now)
            → IsOver image.now (machine_of image.now self.now) → result ≡ true }
    {
        let _endmem = image.endmem();
        if !self.is_of(image) {
            return false;
        }
        if !self.has_size() {
            return false;
        }
        if !self.has_heap() {
            return false;
        }
        if !self.has_stack_size(image) {
            return false;
        }
        if !self.stack.is_framed() {
            return false;
        }
        if self.mode > 2 {
            return false;
        }
        self.has_undo(image)
    }
}

impl<'i> Machine<'i> {
    /// The machine of the story with this image that has these fields. None exactly where no
    /// machine of the story that waits has them.
    pub fn of_fields(image: &Image<'i>, fields: MachineFields<'i>) -> Option<Machine<'i>>
        ensures value { IfSome result (λ machine.
            machine ≡ machine_of image.now fields.entry) }
        ensures fit { IfSome result (λ machine. IsFit machine) }
        ensures over { IfSome result (λ machine. IsOver image.now machine) }
        ensures found { IsFit (machine_of image.now fields.entry)
            → IsOver image.now (machine_of image.now fields.entry) → IsSome result }
    {
        if !fields.are_fit(image) {
            return None;
        }
        let MachineFields {
            memory,
            stack,
            pc,
            mode,
            rock,
            string_table,
            store,
            heap,
            undo,
            protection,
            random,
        } = fields;
        Some(Machine {
            memory,
            stack,
            pc,
            mode,
            rock,
            string_table,
            text: Text::Off,
            waiting: Waiting::Store(store),
            verified: image.verify(),
            heap,
            undo,
            protection,
            random,
            start_function: image.start_function(),
            first_table: image.string_table(),
        })
    }

    /// The address of the next instruction.
    pub fn pc(&self) -> u32
        ensures value { result ≡ self.now.pc }
    {
        self.pc
    }

    /// The I/O system: 0 drops output, 1 calls the function at the rock, 2 is Glk.
    pub fn mode(&self) -> u32
        ensures value { result ≡ self.now.mode }
    {
        self.mode
    }

    /// The I/O system's rock.
    pub fn rock(&self) -> u32
        ensures value { result ≡ self.now.rock }
    {
        self.rock
    }

    /// The address of the string-decoding table, or 0.
    pub fn string_table(&self) -> u32
        ensures value { result ≡ self.now.string_table }
    {
        self.string_table
    }

    /// Where the result goes that the last step asked for.
    pub fn waiting(&self) -> Waiting
        ensures value { result ≡ self.now.waiting }
    {
        self.waiting
    }

    /// Its heap.
    pub fn heap(&self) -> &Heap
        ensures value { result.now ≡ self.now.heap }
    {
        &self.heap
    }

    /// The states that undo keeps.
    pub fn undo(&self) -> &Undo<'i>
        ensures value { result.now ≡ self.now.undo }
    {
        &self.undo
    }

    /// The range that a restore spares.
    pub fn protection(&self) -> Protection
        ensures value { result ≡ self.now.protection }
    {
        self.protection
    }

    /// Where its random words stand.
    pub fn random(&self) -> Random
        ensures value { result ≡ self.now.random }
    {
        self.random
    }
}

/// A store as a call stub's DestType and DestAddr.
pub fn store_fields(to: Dest) -> (u32, u32)
    ensures value { result ≡ spec.store_fields to }
{
    match to {
        Dest::Discard => (0, 0),
        Dest::At(at) => (1, at),
        Dest::Local(offset) => (2, offset),
        Dest::Push => (3, 0),
    }
}

/// The store of a DestType and a DestAddr; None exactly where no store has these.
pub fn store_of_fields(kind: u32, at: u32) -> Option<Dest>
    ensures found { IfSome result (λ to. spec.store_fields to ≡ (kind, at)) }
    ensures only { IfNone result (spec.IsNoStore kind at) }
{
    match kind {
        0 if at == 0 => Some(Dest::Discard),
        1 => Some(Dest::At(at)),
        2 => Some(Dest::Local(at)),
        3 if at == 0 => Some(Dest::Push),
        _ => None,
    }
}
