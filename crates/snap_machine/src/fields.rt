//! The fields of a machine, by its parts.

ghost use Rattle.std.specs.Prelude.{◌≡◌, IfOk};
ghost use Rattle.snap_machine.specs.Fields as spec;

use crate::parts::MachineParts;
use crate::undo::undo_of;
use glulx_image::Image;
use snap_fields::SnapStub;
use std::alloc::{AllocError, Global};
use vm_exec::{MachineFields, Protection, Random, store_of_fields};
use vm_heap::{Block, Heap, is_heap};
use vm_memory::Memory;
use vm_operand::Dest;
use vm_stack::Stack;
use vm_undo::{RunsFault, cmem_read};

/// The fields of a machine of the story with this image, begun with this seed. None exactly where
/// the parts are no such fields. The error is want of memory.
pub fn machine_fields_of<'i>(
    alloc: Global,
    image: &Image<'i>,
    seed: u64,
    parts: &MachineParts,
    store: SnapStub,
) -> Result<Option<MachineFields<'i>>, AllocError>
    ensures value { IfOk result (λ fields.
        fields ≡ spec.fields_with image.now seed parts.now store) }
{
    let Some(store) = dest_of(store) else {
        return Ok(None);
    };
    let place = &parts.machine;
    let Some(memory) = memory_of(alloc, place.memory.as_slice(), image)? else {
        return Ok(None);
    };
    let Some(stack) = stack_of(alloc, place.stack.as_slice(), place.frame, image)? else {
        return Ok(None);
    };
    let Some(heap) = heap_of(alloc, place.heap_start, place.heap.as_slice())? else {
        return Ok(None);
    };
    let Some(undo) = undo_of(alloc, parts.undo.as_slice(), image)? else {
        return Ok(None);
    };
    let (settings, random) = (parts.settings, parts.random);
    Ok(Some(MachineFields {
        memory,
        stack,
        pc: place.pc,
        mode: settings.mode,
        rock: settings.rock,
        string_table: settings.string_table,
        store,
        heap,
        undo,
        protection: Protection {
            start: settings.protect_start,
            length: settings.protect_length,
        },
        random: Random {
            seed,
            fresh: random.fresh,
            start: random.start,
            stream: random.stream,
            taken: random.taken,
        },
    }))
}

// The memory whose CMem chunk has these contents.
fn memory_of<'i>(
    alloc: Global,
    contents: &[u8],
    image: &Image<'i>,
) -> Result<Option<Memory<'i>>, AllocError>
    ensures { IfOk result (λ memory. memory ≡ spec.memory_from_chunk image.now contents.now) }
{
    let rom = &image.bytes()[..image.extstart() as usize];
    match cmem_read(alloc, rom, image.ramstart(), image.endmem(), contents) {
        Ok(memory) => Ok(Some(memory)),
        Err(RunsFault::NoMemory) => Err(AllocError),
        Err(RunsFault::BadRuns) => Ok(None),
    }
}

// The stack with these bytes and this frame.
fn stack_of(
    alloc: Global,
    bytes: &[u8],
    frame: u32,
    image: &Image<'_>,
) -> Result<Option<Stack>, AllocError>
    ensures { IfOk result (λ stack. stack ≡ spec.stack_of image.now bytes.now frame) }
{
    Stack::of_fields(alloc, image.stack_size(), bytes, frame)
}

// The heap with this start and these blocks.
fn heap_of(alloc: Global, start: u32, blocks: &[Block]) -> Result<Option<Heap>, AllocError>
    ensures { IfOk result (λ heap. heap ≡ spec.heap_from_fields start blocks.now) }
{
    if !is_heap(start, blocks) {
        return Ok(None);
    }
    let mut heap = Heap::new(alloc);
    heap.load(alloc, start, blocks)?;
    Ok(Some(heap))
}

// The store of a DestType and a DestAddr.
fn dest_of(store: SnapStub) -> Option<Dest>
    ensures { result ≡ spec.dest_of_store store }
{
    store_of_fields(store.kind, store.address)
}
