//! The memory that the contents of a CMem or UMem chunk give (Quetzal 1.4, "Content of dynamic
//! memory").

ghost use Rattle.std.specs.Prelude.{◌≡◌, ◌+◌, length, IfOk};
ghost use Rattle.glulx_image.specs.Header as header;
ghost use Rattle.quetzal.specs.Fault.{GivesUnlessNoMemory, or_else};
ghost use Rattle.quetzal.specs.Memory.{memory_in_chunk, plain_memory};
ghost use Rattle.quetzal.specs.Save.{image_memory, origin};
ghost use Rattle.quetzal.specs.declared.fault.SaveFault.TheVariants.{BadRuns};
ghost use Rattle.vm_undo.specs.Contents.{IsMemoryOf, memory_of_contents, memory_with};
ghost use Rattle.vm_undo.specs.SavedState.{IsSize};

use crate::fault::SaveFault;
use crate::form::word;
use crate::reader::story_rom;
use glulx_image::Image;
use std::alloc::{AllocError, Global};
use vm_memory::Memory;
use vm_undo::{RunsFault, cmem_read, is_size};

/// The memory of a story that a chunk's contents give, those of CMem by its runs.
#[tactic(auto, unfolding(crate::specs::Memory::memory_in_chunk))]
pub fn read_memory<'i>(
    alloc: Global,
    image: &Image<'i>,
    contents: &[u8],
    compressed: bool,
) -> Result<Memory<'i>, SaveFault>
    ensures exact { GivesUnlessNoMemory (λ m. m) result
        (memory_in_chunk (origin image.now) contents.now compressed) }
    ensures memory { IfOk result (λ m. IsMemoryOf (origin image.now) m) }
{
    if compressed {
        coded_memory(alloc, image, contents)
    } else {
        plain_memory(alloc, image, contents)
    }
}

fn coded_memory<'i>(
    alloc: Global,
    image: &Image<'i>,
    contents: &[u8],
) -> Result<Memory<'i>, SaveFault>
    ensures exact { GivesUnlessNoMemory (λ m. m) result
        (or_else BadRuns (memory_of_contents (origin image.now) contents.now)) }
    ensures memory { IfOk result (λ m. IsMemoryOf (origin image.now) m) }
{
    let rom = story_rom(image);
    let (ramstart, endmem) = (image.ramstart(), image.endmem());
    match cmem_read(alloc, rom, ramstart, endmem, contents) {
        Ok(memory) => Ok(memory),
        Err(RunsFault::BadRuns) => Err(SaveFault::BadRuns),
        Err(RunsFault::NoMemory) => Err(SaveFault::NoMemory),
    }
}

fn plain_memory<'i>(
    alloc: Global,
    image: &Image<'i>,
    contents: &[u8],
) -> Result<Memory<'i>, SaveFault>
    ensures exact { GivesUnlessNoMemory (λ m. m) result
        (or_else BadRuns (plain_memory (origin image.now) contents.now)) }
    ensures memory { IfOk result (λ m. IsMemoryOf (origin image.now) m) }
{
    if contents.len() < 4 {
        return Err(SaveFault::BadRuns);
    }
    let size = word(contents, 0);
    if !is_size(image.endmem(), size) {
        return Err(SaveFault::BadRuns);
    }
    let (_, ram) = contents.split_at(4);
    if ram.len() != (size - image.ramstart()) as usize {
        return Err(SaveFault::BadRuns);
    }
    Ok(memory_with(alloc, image, size, ram)?)
}

// The memory of a story of this size with these bytes in RAM.
fn memory_with<'i>(
    alloc: Global,
    image: &Image<'i>,
    size: u32,
    ram: &[u8],
) -> Result<Memory<'i>, AllocError>
    requires size { IsSize (header.endmem image.now) size }
    requires ram { header.ramstart image.now + length ram.now ≡ size }
    ensures value { IfOk result (λ m. m ≡ memory_with (origin image.now) ram.now) }
    ensures memory { IfOk result (λ m. IsMemoryOf (origin image.now) m) }
{
    let _rom = story_rom(image);
    let mut memory = first_memory(alloc, image)?;
    memory.resize(size)?;
    memory.load_ram(ram)?;
    Ok(memory)
}

/// The memory of a story as it begins. The error is want of memory.
pub fn first_memory<'i>(alloc: Global, image: &Image<'i>) -> Result<Memory<'i>, AllocError>
    ensures value { IfOk result (λ memory. memory ≡ image_memory image.now) }
{
    Memory::new(alloc, story_rom(image), image.ramstart(), image.endmem())
}
