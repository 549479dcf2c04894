//! Saves and restores over the streams of a session.

ghost use Rattle.std.specs.Prelude.{◌≡◌, true, false, [], Ok, OnOk};
ghost use Rattle.glk_dispatch.specs.Answer.{Gets, AnswersItems};
ghost use Rattle.glk_input.specs.Delivery.{code_taken};
ghost use Rattle.quetzal.specs.Save.{canon, save_in};
ghost use Rattle.story_run.specs.Saves as saves;
ghost use Rattle.story_run.specs.Saves.{LeavesGlkAndMachine};
ghost use Rattle.story_run.specs.World.{IsWaiting};
ghost use Rattle.vm_exec.specs.Answer.{Changes, MakesList};
ghost use Rattle.vm_exec.specs.Machine.{IsSaving};
ghost use Rattle.vm_exec.specs.Rows.Undo.{saved_state};
ghost use Rattle.vm_exec.specs.Start.{IsOver};
ghost use Rattle.vm_memory.specs.MemoryMap.{KeepsMap};

use glk_dispatch::{Glk, get_code, pass_ahead, position, put_code};
use glulx_image::Image;
use quetzal::{SaveFault, read, write};
use std::alloc::Global;
use vm_exec::Machine;
use vm_memory::{Memory, Trap};

/// Does the save that the machine asked for: its state goes to the stream. The result is 0 where
/// the stream is live, open for writing and kept every byte, and else 1.
pub(crate) fn save<'i>(
    alloc: Global,
    glk: &mut Glk,
    machine: &mut Machine<'i>,
    image: &Image<'i>,
    stream: u32,
) -> Result<(), Trap>
    requires saving { IsSaving machine.old }
    requires over { IsOver image.now machine.old }
    ensures does { LeavesGlkAndMachine (saves.saved image.now glk.old machine.old stream)
        glk.new machine.new result }
    ensures kept { OnOk result (IsWaiting image.now machine.new) }
    ensures seed { OnOk result (machine.new.random.seed ≡ machine.old.random.seed) }
{
    if !is_writable(glk, stream) {
        return machine.finish(alloc, 1);
    }
    let bytes = spelled(alloc, machine, image)?;
    let kept = put_bytes(alloc, glk, &mut machine.memory, stream, &bytes)?;
    machine.finish(alloc, if kept { 0 } else { 1 })
}

// The one spelling of the machine's state.
fn spelled<'i>(alloc: Global, machine: &Machine<'i>, image: &Image<'i>) -> Result<Vec<u8>, Trap>
    requires saving { IsSaving machine.now }
    requires over { IsOver image.now machine.now }
    ensures { MakesList (Ok (canon image.now (saved_state machine.now))) result }
{
    let Ok(state) = machine.saved(alloc) else {
        return Err(Trap::NoMemory);
    };
    match write(alloc, &state, image) {
        Ok(bytes) => Ok(bytes),
        Err(_) => Err(Trap::NoMemory),
    }
}

fn is_writable(glk: &Glk, stream: u32) -> bool
    ensures { result ≡ saves.is_writable glk.now stream }
{
    match glk.streams.stream(stream) {
        Some(held) => held.is_writable(),
        None => false,
    }
}

fn is_readable(glk: &Glk, stream: u32) -> bool
    ensures { result ≡ saves.is_readable glk.now stream }
{
    match glk.streams.stream(stream) {
        Some(held) => held.is_readable(),
        None => false,
    }
}

// Puts bytes to a stream, each as a character. Whether it kept them all.
fn put_bytes(
    alloc: Global,
    glk: &mut Glk,
    memory: &mut Memory,
    stream: u32,
    bytes: &[u8],
) -> Result<bool, Trap>
    ensures does { Gets (saves.put_save_bytes glk.old memory.old stream true bytes.now)
        glk.new memory.new result }
    ensures kept { OnOk result (KeepsMap memory.old memory.new) }
{
    let mut kept = true;
    for byte in bytes {
        let is_kept = put_byte(alloc, glk, memory, stream, *byte)?;
        kept = kept && is_kept;
    }
    Ok(kept)
}

// Puts a byte to a stream, as a character. Whether it was kept: the stream's position moves on.
fn put_byte(
    alloc: Global,
    glk: &mut Glk,
    memory: &mut Memory,
    stream: u32,
    byte: u8,
) -> Result<bool, Trap>
    ensures does { Gets (saves.put_byte glk.old memory.old stream byte)
        glk.new memory.new result }
    ensures kept { OnOk result (KeepsMap memory.old memory.new) }
{
    let before = position(glk, stream)?;
    put_code(alloc, glk, memory, stream, u32::from(byte))?;
    let behind = position(glk, stream)?;
    Ok(behind != before)
}

/// Does the restore that the machine asked for: what the stream holds from its position on is read.
/// The machine goes on as the state that it spells; where it spells none, or the stream isn't live
/// and open for reading, the result is 1.
pub(crate) fn restore<'i>(
    alloc: Global,
    glk: &mut Glk,
    machine: &mut Machine<'i>,
    image: &Image<'i>,
    stream: u32,
) -> Result<(), Trap>
    requires { IsWaiting image.now machine.old }
    ensures does { LeavesGlkAndMachine (saves.restored image.now glk.old machine.old stream)
        glk.new machine.new result }
    ensures kept { OnOk result (IsWaiting image.now machine.new) }
    ensures seed { OnOk result (machine.new.random.seed ≡ machine.old.random.seed) }
{
    if !is_readable(glk, stream) {
        return machine.finish(alloc, 1);
    }
    restore_rest(alloc, glk, machine, image, stream)
}

// The same from a stream that is open for reading. What a file holds is read all at once.
fn restore_rest<'i>(
    alloc: Global,
    glk: &mut Glk,
    machine: &mut Machine<'i>,
    image: &Image<'i>,
    stream: u32,
) -> Result<(), Trap>
    requires { IsWaiting image.now machine.old }
    ensures does { LeavesGlkAndMachine (saves.rest_restored image.now glk.old machine.old stream)
        glk.new machine.new result }
    ensures kept { OnOk result (IsWaiting image.now machine.new) }
    ensures seed { OnOk result (machine.new.random.seed ≡ machine.old.random.seed) }
{
    match glk.streams.bytes_ahead(stream) {
        Some(bytes) => {
            let done = bring_back(alloc, machine, image, bytes);
            pass_ahead(glk, stream);
            done
        }
        None => restore_by_characters(alloc, glk, machine, image, stream),
    }
}

// The same a character at a time.
fn restore_by_characters<'i>(
    alloc: Global,
    glk: &mut Glk,
    machine: &mut Machine<'i>,
    image: &Image<'i>,
    stream: u32,
) -> Result<(), Trap>
    requires { IsWaiting image.now machine.old }
    ensures does { LeavesGlkAndMachine (saves.rest_restored image.now glk.old machine.old stream)
        glk.new machine.new result }
    ensures kept { OnOk result (IsWaiting image.now machine.new) }
    ensures seed { OnOk result (machine.new.random.seed ≡ machine.old.random.seed) }
{
    let bytes = rest_of(alloc, glk, &machine.memory, stream)?;
    bring_back(alloc, machine, image, &bytes)
}

// The rest of a stream, a byte for each of its characters.
fn rest_of(alloc: Global, glk: &mut Glk, memory: &Memory, stream: u32) -> Result<Vec<u8>, Trap>
    ensures { AnswersItems (saves.rest_of_stream 4294967295 glk.old memory.now stream [])
        glk.new result }
{
    let mut bytes = Vec::new(alloc);
    let mut left = u32::MAX;
    while left > 0 {
        let Some(code) = get_code(glk, memory, stream)? else {
            return Ok(bytes);
        };
        if bytes.push(byte_of(code)).is_err() {
            return Err(Trap::NoMemory);
        }
        left -= 1;
    }
    Ok(bytes)
}

// A character as a byte.
fn byte_of(code: u32) -> u8
    ensures { result ≡ code_taken false code }
{
    if code > 255 { b'?' } else { code as u8 }
}

// The machine as the state that the bytes spell.
fn bring_back<'i>(
    alloc: Global,
    machine: &mut Machine<'i>,
    image: &Image<'i>,
    bytes: &[u8],
) -> Result<(), Trap>
    requires { IsWaiting image.now machine.old }
    ensures does { Changes (saves.brought_back machine.old (save_in image.now bytes.now))
        machine.new result }
    ensures kept { OnOk result (IsWaiting image.now machine.new) }
    ensures seed { OnOk result (machine.new.random.seed ≡ machine.old.random.seed) }
{
    match read(alloc, bytes, image) {
        Ok(state) => machine.resume(alloc, state),
        Err(SaveFault::NoMemory) => Err(Trap::NoMemory),
        Err(
            SaveFault::NotSave
            | SaveFault::Cut
            | SaveFault::OtherStory
            | SaveFault::BadRuns
            | SaveFault::BadStack
            | SaveFault::BadHeap,
        ) => machine.finish(alloc, 1),
    }
}
