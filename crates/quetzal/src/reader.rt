//! Reading a save (Quetzal 1.4, "Overall Structure").

ghost use Rattle.std.specs.Prelude.{◌≡◌, ◌≤◌, length, IfOk};
ghost use Rattle.std.specs.Str.{bytes_eq};
ghost use Rattle.glulx_image.specs.Header.{endmem, ramstart};
ghost use Rattle.quetzal.specs.Fault.{GivesUnlessNoMemory};
ghost use Rattle.quetzal.specs.Save as save;
ghost use Rattle.quetzal.specs.Save.{IsStateOf, identity, save_in};

use crate::fault::SaveFault;
use crate::form::read_parts;
use crate::heap::read_heap;
use crate::memory::read_memory;
use glulx_image::Image;
use std::alloc::Global;
use vm_stack::is_chain;
use vm_undo::{Saved, StackBytes};

/// The state of the story that the bytes spell, or the first cause against them. No clause
/// says how much memory it takes.
#[tactic(auto, unfolding(crate::specs::Save::save_in))]
pub fn read<'i>(alloc: Global, bytes: &[u8], image: &Image<'i>) -> Result<Saved<'i>, SaveFault>
    ensures exact { GivesUnlessNoMemory (λ s. s) result (save_in image.now bytes.now) }
    ensures kept { IfOk result (λ s. IsStateOf image.now s) }
{
    let parts = read_parts(bytes)?;
    if !is_same(parts.header, story_identity(image)) {
        return Err(SaveFault::OtherStory);
    }
    let memory = read_memory(alloc, image, parts.memory, parts.compressed)?;
    if !is_stack_of(image, parts.stack) {
        return Err(SaveFault::BadStack);
    }
    let heap = read_heap(alloc, image.endmem(), memory.size(), parts.heap)?;
    let stack = Vec::from_slice(alloc, parts.stack)?;
    Ok(Saved {
        memory,
        stack: StackBytes::of(stack),
        heap: heap.blocks,
        heap_start: heap.start,
    })
}

// Whether the bytes are frames with a stub on top, which the story's stack holds.
fn is_stack_of(image: &Image<'_>, bytes: &[u8]) -> bool
    ensures { result ≡ save.is_stack_of image.now bytes.now }
{
    bytes.len() <= image.stack_size() as usize && is_chain(bytes)
}

fn is_same(one: &[u8], other: &[u8]) -> bool
    ensures { result ≡ bytes_eq one.now other.now }
{
    one == other
}

// The story's first 128 bytes.
pub fn story_identity<'i>(image: &Image<'i>) -> &'i [u8]
    ensures { result.now ≡ identity image.now }
{
    &image.bytes()[..128]
}

// The file's bytes that memory begins with.
pub fn story_rom<'i>(image: &Image<'i>) -> &'i [u8]
    ensures value { result.now ≡ save.rom image.now }
    ensures least { ramstart image.now ≤ length result.now }
    ensures most { length result.now ≤ endmem image.now }
{
    &image.bytes()[..image.extstart() as usize]
}
