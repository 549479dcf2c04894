//! What a character that is put does (Glk 0.7.5, "Output").

ghost use Rattle.std.specs.Prelude.{◌≡◌, ◌≤◌, length, IfOk, OnErr};
ghost use Rattle.glk_streams.specs.Answer.{GivesWithStreams, LeavesBoth, GivesWithStreamsAndMemory};
ghost use Rattle.glk_streams.specs.Answer.{Yields};
ghost use Rattle.glk_streams.specs.Coding.{kept_code, unit_of};
ghost use Rattle.vm_memory.specs.Access.{LeavesMemory, written};
ghost use Rattle.glk_streams.specs.Output as output;

use crate::coding::Coding;
use crate::fault::StreamStop;
use crate::file::{File, content_of, is_kept, write_file};
use crate::find::find;
use crate::stream::{Stream, Target};
use crate::streams::Streams;
use std::alloc::{AllocError, Global};
use story_text::Text;
use vm_memory::{MemStop, Memory};

/// How many positions a memory stream has: none without a buffer.
pub(crate) fn length_of(buf: u32, len: u32) -> u32
    ensures value { result ≡ output.length_of buf len }
    ensures within { result ≤ len }
{
    if buf == 0 { 0 } else { len }
}

/// Where a character of a buffer stands: addresses are modulo 2^32.
pub(crate) fn address_of(coding: Coding, buf: u32, place: u32) -> u32
    ensures { result ≡ output.address_of coding buf place }
{
    buf.wrapping_add(place.wrapping_mul(coding.unit()))
}

/// Writes a character's number in as many bytes as a position has.
fn write(memory: &mut Memory, coding: Coding, at: u32, code: u32) -> Result<(), MemStop>
    ensures value { LeavesMemory
        (written (unit_of coding) memory.old at (kept_code coding code)) memory.new result }
    ensures err { OnErr result (memory.new ≡ memory.old) }
{
    let code = coding.kept_code(code);
    match coding {
        Coding::Latin1 | Coding::Utf8 => memory.write1(at, code),
        Coding::Utf32 => memory.write4(at, code),
    }
}

/// Puts a character into a buffer, and gives where its stream then stands.
fn put_in_memory(
    memory: &mut Memory,
    place: u32,
    buf: u32,
    len: u32,
    coding: Coding,
    code: u32,
) -> Result<u32, StreamStop>
    ensures value { GivesWithStreams
        (output.put_in_memory memory.old place buf len coding code) memory.new result }
    ensures err { OnErr result (memory.new ≡ memory.old) }
{
    if place >= length_of(buf, len) {
        return Ok(place);
    }
    write(memory, coding, address_of(coding, buf, place), code)?;
    Ok(place + 1)
}

/// Puts bytes at a position of a file, and gives where their stream then stands.
fn put_bytes(
    files: &mut Vec<File>,
    alloc: Global,
    place: u32,
    usage: u32,
    name: &Text,
    coding: Coding,
    new: &[u8],
) -> Result<u32, AllocError>
    requires some { 1 ≤ length new.now }
    requires few { length new.now ≤ 4 }
    ensures ok { IfOk result (λ place_new.
        Yields (output.put_bytes files.old.items place usage name.now coding new.now)
        files.new.items place_new) }
    ensures err { OnErr result (files.new.items ≡ files.old.items) }
{
    let held = place.min(coding.units(content_of(files, usage, name)) as u32);
    let at = (coding.unit() * held) as usize;
    if !is_kept(files, usage, name, at, new.len()) {
        return Ok(place);
    }
    write_file(files, alloc, usage, name, at, new)?;
    Ok(held + coding.steps(new.len()) as u32)
}

/// Puts a character to a stream that is open for writing, and gives where the stream then stands.
fn put_by(
    files: &mut Vec<File>,
    alloc: Global,
    memory: &mut Memory,
    stream: &Stream,
    code: u32,
) -> Result<u32, StreamStop>
    ensures value { GivesWithStreamsAndMemory
        (output.put_by files.old.items memory.old stream.now code)
        files.new.items memory.new result }
    ensures files { OnErr result (files.new.items ≡ files.old.items) }
    ensures memory { OnErr result (memory.new ≡ memory.old) }
{
    if !stream.is_writable() {
        return Err(StreamStop::BadArgument);
    }
    let place = stream.place;
    match &stream.target {
        Target::Window(_) => Ok(place),
        Target::Memory { buf, len } => {
            put_in_memory(memory, place, *buf, *len, stream.coding(), code)
        }
        Target::File { usage, name } => {
            let coding = stream.coding();
            let mut buffer = [0; 4];
            let new = coding.write(code, &mut buffer);
            Ok(put_bytes(files, alloc, place, *usage, name, coding, new)?)
        }
    }
}

impl Stream {
    /// One character more was written, and the stream stands here.
    fn count_written(&mut self, place: u32)
        ensures { self.new ≡ output.write_counted (output.at_position place self.old) }
    {
        self.place = place;
        self.written = self.written.wrapping_add(1);
    }
}

impl Streams {
    /// Puts a character, by its code, to a stream, which counts it. One that has no room is
    /// dropped, and one for a window is only counted: the caller prints it there. BadObject where
    /// the stream isn't live; BadArgument where it isn't open for writing; the fault of memory
    /// where its buffer can't be written.
    pub fn put(
        &mut self,
        alloc: Global,
        memory: &mut Memory,
        stream: u32,
        code: u32,
    ) -> Result<(), StreamStop>
        ensures value { LeavesBoth
            (output.put_on_stream self.old memory.old stream code) self.new memory.new result }
        ensures err { OnErr result (self.new ≡ self.old) }
        ensures memory { OnErr result (memory.new ≡ memory.old) }
    {
        match find(&self.streams, stream) {
            None => Err(StreamStop::BadObject),
            Some(at) => {
                let place = put_by(&mut self.files, alloc, memory, &self.streams[at], code)?;
                self.streams[at].count_written(place);
                Ok(())
            }
        }
    }
}
