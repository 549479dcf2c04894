//! Writing a form of chunks (Quetzal 1.4, "Overall structure").

ghost use Rattle.std.specs.Prelude.{◌≡◌, ◌++◌, ◌+◌, ◌<◌, ◌^◌, length, OnOk, IfOk, Ok};
ghost use Rattle.quetzal.specs.Printing.{chunk, heap_chunk, chunks_of, print_save};
ghost use Rattle.quetzal.specs.Printing.{ReadsWhatIsPrinted};
ghost use Rattle.quetzal.specs.Chunks.{now_of};
ghost use Rattle.quetzal.specs.Save.{IsStateOf, canon, save_in};
ghost use Rattle.glulx_image.specs.Header.{IsLaidOut};
ghost use Rattle.vm_memory.specs.MemoryMap.{KeepsRom};

use crate::form::{CMEM, FORM, IFHD, IFZS, MALL, STKS};
use crate::heap::write_heap;
use crate::reader::story_identity;
use glulx_image::Image;
use std::alloc::{AllocError, Global};
use vm_undo::{Saved, cmem_write};

#[tactic(auto, unfolding(crate::specs::Printing::chunk))]
fn push_chunk(out: &mut Vec<u8>, name: u32, contents: &[u8]) -> Result<(), AllocError>
    requires { length contents.now < 2 ^ 32 }
    ensures { OnOk result (out.new.items ≡ out.old.items ++ chunk name contents.now) }
{
    out.extend_from_slice(&name.to_be_bytes())?;
    out.extend_from_slice(&(contents.len() as u32).to_be_bytes())?;
    out.extend_from_slice(contents)?;
    if contents.len() % 2 == 1 {
        out.push(0)?;
    }
    Ok(())
}

fn push_heap(out: &mut Vec<u8>, heap: Option<&[u8]>) -> Result<(), AllocError>
    requires { length (heap_chunk (now_of heap)) < 2 ^ 32 }
    ensures { OnOk result (out.new.items ≡ out.old.items ++ heap_chunk (now_of heap.entry)) }
{
    match heap {
        None => Ok(()),
        Some(contents) => push_chunk(out, MALL, contents),
    }
}

/// The save of a state of the story, in the one spelling that is written: memory coded, then the
/// stack, then the heap if it has a block. The error is want of memory.
pub fn write(alloc: Global, state: &Saved<'_>, image: &Image<'_>) -> Result<Vec<u8>, AllocError>
    requires { IsStateOf image.now state.now }
    ensures ok { IfOk result (λ v. v.items ≡ canon image.now state.now) }
    ensures read { IfOk result (λ v. save_in image.now v.items ≡ Ok state.now) }
{
    spelled(alloc, state, image)
}

fn spelled(alloc: Global, state: &Saved<'_>, image: &Image<'_>) -> Result<Vec<u8>, AllocError>
    requires { IsStateOf image.now state.now }
    ensures ok { IfOk result (λ v. v.items ≡ canon image.now state.now) }
    ensures kept { KeepsRom state.now.memory.ramstart state.now.memory.rom state.now.memory.bytes }
    ensures laid { IsLaidOut image.now }
    ensures start { state.now.heap_start < 2 ^ 32 }
{
    let _rom = state.memory.rom();
    let _ramstart = image.ramstart();
    let heap = write_heap(alloc, state.heap_start, state.heap.as_slice())?;
    let memory = cmem_write(alloc, &state.memory)?;
    write_save(
        alloc,
        story_identity(image),
        memory.as_slice(),
        state.stack.as_slice(),
        heap.as_deref(),
    )
}

// A save of these parts, its memory coded.
fn write_save(
    alloc: Global,
    header: &[u8],
    memory: &[u8],
    stack: &[u8],
    heap: Option<&[u8]>,
) -> Result<Vec<u8>, AllocError>
    requires { 4 + length (chunks_of header.now memory.now stack.now (now_of heap)) < 2 ^ 32 }
    ensures { IfOk result (λ v. v.items
        ≡ print_save header.now memory.now stack.now (now_of heap.entry)) }
{
    let mut chunks = Vec::new(alloc);
    push_chunk(&mut chunks, IFHD, header)?;
    push_chunk(&mut chunks, CMEM, memory)?;
    push_chunk(&mut chunks, STKS, stack)?;
    push_heap(&mut chunks, heap)?;
    let mut out = Vec::new(alloc);
    out.extend_from_slice(&FORM.to_be_bytes())?;
    out.extend_from_slice(&((4 + chunks.len()) as u32).to_be_bytes())?;
    out.extend_from_slice(&IFZS.to_be_bytes())?;
    out.extend_from_slice(chunks.as_slice())?;
    Ok(out)
}
