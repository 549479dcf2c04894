//! Memory as the contents of a CMem chunk (Quetzal 1.4, "Content of dynamic memory").

ghost use Rattle.std.specs.Prelude.{◌≡◌, ◌≤◌, ◌<◌, ◌++◌, false, length, IfOk, None, Ok, OnErr, OnOk};
ghost use Rattle.std.specs.Prelude.{List, ℕ, Some, true};
ghost use Rattle.vm_memory.specs.MemoryMap.{Origin, KeepsMap, origin_of, ram_of};
ghost use Rattle.vm_undo.specs.Contents.{GivesMemory, IsContents, IsMemoryOf, contents, first_ram};
ghost use Rattle.vm_undo.specs.Contents.{is_contents, is_size, memory_of_contents};
ghost use Rattle.vm_undo.specs.Runs.{runs_decoded};
ghost use Rattle.vm_undo.specs.declared.runs.RunsFault.TheVariants.{BadRuns};

use crate::fits::is_size;
use crate::runs::{RunsFault, are_runs, push_zeros};
use byteorder::{BigEndian, ByteOrder};
use std::alloc::{AllocError, Global};
use vm_memory::{MAX_SIZE, Memory};

/// The contents of the CMem chunk of a memory, in the one coding that is written. It looks at the
/// pages that differ alone, and keeps no room for more. The error is want of memory.
pub fn cmem_write(alloc: Global, memory: &Memory<'_>) -> Result<Vec<u8>, AllocError>
    ensures value { IfOk result (λ v. v.items ≡ contents memory.now) }
{
    let mut contents = coded(alloc, memory)?;
    contents.shrink_to_fit();
    Ok(contents)
}

// How many bytes contents get room for before they are written.
const ROOM: usize = 256;

// The same, in a vector that may have room for more.
fn coded(alloc: Global, memory: &Memory<'_>) -> Result<Vec<u8>, AllocError>
    ensures value { IfOk result (λ v. v.items ≡ contents memory.now) }
{
    let size = memory.size();
    let _rom = memory.rom();
    let mut out = Vec::with_capacity(alloc, ROOM)?;
    out.extend_from_slice(&size.to_be_bytes())?;
    let mut at = memory.ramstart();
    while at < size {
        let change = memory.change1(at);
        if change != 0 {
            out.push(change)?;
            at += 1;
        } else {
            let next = memory.next_change(at);
            if next == size {
                return Ok(out);
            }
            push_zeros(&mut out, next - at)?;
            out.push(memory.change1(next))?;
            at = next + 1;
        }
    }
    Ok(out)
}

/// The memory that the contents of a CMem chunk give; BadRuns exactly where they give none. It
/// writes the bytes that differ alone.
pub fn cmem_read<'i>(
    alloc: Global,
    rom: &'i [u8],
    ramstart: u32,
    endmem: u32,
    bytes: &[u8],
) -> Result<Memory<'i>, RunsFault>
    requires ram { ramstart ≤ length rom.now }
    requires extent { length rom.now ≤ endmem }
    requires some { 0 < endmem }
    requires limit { endmem ≤ MAX_SIZE }
    ensures exact { GivesMemory (memory_of_contents
        (record { ramstart = ramstart; rom = rom.now; endmem = endmem }) bytes.now) result }
    ensures memory { IfOk result (λ m. IsMemoryOf
        (record { ramstart = ramstart; rom = rom.now; endmem = endmem }) m) }
{
    if bytes.len() < 4 {
        return Err(RunsFault::BadRuns);
    }
    let size = BigEndian::read_u32(bytes);
    if !is_size(endmem, size) {
        return Err(RunsFault::BadRuns);
    }
    let mut memory = Memory::new(alloc, rom, ramstart, endmem)?;
    memory.resize(size)?;
    let (_, runs) = bytes.split_at(4);
    if !lay(&mut memory, runs)? {
        return Err(RunsFault::BadRuns);
    }
    let _rom = memory.rom();
    Ok(memory)
}

// Lays runs over memory that is as it was at first, and tells whether they are any. Where they
// aren't, nothing is said of its bytes.
fn lay(memory: &mut Memory<'_>, runs: &[u8]) -> Result<bool, AllocError>
    requires first { ram_of memory.old
        ≡ first_ram (origin_of memory.old) (length memory.old.bytes) }
    ensures ok { result ≡ Ok true
        → runs_decoded false (ram_of memory.old) runs.now ≡ Some (ram_of memory.new) }
    ensures bad { result ≡ Ok false → runs_decoded false (ram_of memory.old) runs.now ≡ None }
    ensures kept { OnOk result (KeepsMap memory.old memory.new) }
{
    let _rom = memory.rom();
    let size = memory.size();
    let mut at = memory.ramstart();
    let mut due = false;
    for byte in runs {
        let byte = *byte;
        if due {
            let run = u32::from(byte) + 1;
            if size - at < run {
                return Ok(false);
            }
            at += run;
            due = false;
        } else if byte == 0 {
            due = true;
        } else {
            if at == size {
                return Ok(false);
            }
            memory.write_change1(at, byte)?;
            at += 1;
        }
    }
    Ok(!due)
}

/// Whether the bytes are the contents of a memory of an image with this RAMSTART and ENDMEM,
/// whatever the image's bytes are.
pub fn is_contents(ramstart: u32, endmem: u32, bytes: &[u8]) -> bool
    ensures value { result ≡ is_contents ramstart endmem bytes.now }
    ensures only { result ≡ true → (rom : List ℕ) → ramstart ≤ length rom → length rom ≤ endmem
        → IsContents (record { ramstart = ramstart; rom = rom; endmem = endmem }) bytes.now }
    ensures found { (rom : List ℕ)
        → IsContents (record { ramstart = ramstart; rom = rom; endmem = endmem }) bytes.now
        → result ≡ true }
{
    passes(ramstart, endmem, bytes)
}

// The same as a test.
fn passes(ramstart: u32, endmem: u32, bytes: &[u8]) -> bool
    ensures { result ≡ is_contents ramstart endmem bytes.now }
{
    if bytes.len() < 4 {
        return false;
    }
    let size = BigEndian::read_u32(bytes);
    if !is_size(endmem, size) {
        return false;
    }
    let (_, runs) = bytes.split_at(4);
    are_runs(size.saturating_sub(ramstart), runs)
}
