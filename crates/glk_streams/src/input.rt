//! What a character that is read does (Glk 0.7.5, "Streams").

ghost use Rattle.std.specs.Prelude.{◌≡◌, ◌≤◌, ◌<◌, ◌+◌, ◌^◌, length, IfOk, IfSome};
ghost use Rattle.std.specs.Prelude.{MatchOption, None, Some, OnErr};
ghost use Rattle.glk_streams.specs.Answer.{AnswersOfStreams, GivesWithStreams, TakesNoMemory};
ghost use Rattle.glk_streams.specs.Answer.{Yields};
ghost use Rattle.glk_streams.specs.Coding.{unit_of};
ghost use Rattle.glk_streams.specs.Input as input;
ghost use Rattle.vm_memory.specs.Access as access;

use crate::coding::{Coding, Reading};
use crate::fault::StreamStop;
use crate::file::{File, content_of};
use crate::find::find;
use crate::output::{address_of, length_of};
use crate::stream::{Stream, Target};
use crate::streams::Streams;
use vm_memory::{MemFault, Memory};

/// Reads a character's number from as many bytes as a position has.
fn read(memory: &Memory, coding: Coding, at: u32) -> Result<u32, MemFault>
    ensures { result ≡ access.read (unit_of coding) memory.now at }
{
    match coding {
        Coding::Latin1 | Coding::Utf8 => memory.read1(at),
        Coding::Utf32 => memory.read4(at),
    }
}

/// A character out of a buffer; None at its end.
fn get_from_memory(
    memory: &Memory,
    place: u32,
    buf: u32,
    len: u32,
    coding: Coding,
) -> Result<Option<Reading>, StreamStop>
    ensures value { AnswersOfStreams (input.got_from_memory memory.now place buf len coding)
        result }
    ensures refusal { TakesNoMemory result }
    ensures fits { IfOk result (λ r. IfSome r (λ r. place + r.steps < 2 ^ 32)) }
{
    if place >= length_of(buf, len) {
        return Ok(None);
    }
    let code = read(memory, coding, address_of(coding, buf, place))?;
    Ok(Some(Reading { code, steps: 1 }))
}

/// A character of a stream that is open for reading; None at its end.
fn get_by(files: &[File], memory: &Memory, stream: &Stream) -> Result<Option<Reading>, StreamStop>
    ensures value { AnswersOfStreams (input.got_by files.now memory.now stream.now) result }
    ensures refusal { TakesNoMemory result }
    ensures fits { IfOk result (λ r. IfSome r (λ r. stream.now.place + r.steps < 2 ^ 32)) }
{
    if !stream.is_readable() {
        return Err(StreamStop::BadArgument);
    }
    match &stream.target {
        Target::Window(_) => Err(StreamStop::BadArgument),
        Target::Memory { buf, len } => {
            get_from_memory(memory, stream.place, *buf, *len, stream.coding())
        }
        Target::File { usage, name } => {
            let bytes = content_of(files, *usage, name);
            Ok(stream.coding().read(bytes, stream.place))
        }
    }
}

/// The bytes from a position on, if there is one.
fn bytes_from(bytes: &[u8], place: u32) -> Option<&[u8]>
    ensures value { MatchOption result (input.bytes_from bytes.now place ≡ None)
        (λ b. input.bytes_from bytes.now place ≡ Some b.now) }
    ensures within { IfSome result (λ b. place + length b.now ≤ length bytes.now) }
{
    let at = place as usize;
    if at < bytes.len() {
        Some(&bytes[at..])
    } else {
        None
    }
}

/// The bytes from its position on of a plain stream of a file that is open for reading; None at its
/// end, and of each other stream.
fn bytes_by<'a>(files: &'a [File], stream: &Stream) -> Option<&'a [u8]>
    ensures value { MatchOption result (input.bytes_by files.now stream.now ≡ None)
        (λ b. input.bytes_by files.now stream.now ≡ Some b.now) }
    ensures within { IfSome result (λ b. stream.now.place + length b.now ≤ 1048576) }
{
    if !stream.is_readable() {
        return None;
    }
    match &stream.target {
        Target::Window(_) => None,
        Target::Memory { .. } => None,
        Target::File { usage, name } => {
            if stream.unicode {
                return None;
            }
            bytes_from(content_of(files, *usage, name), stream.place)
        }
    }
}

/// Each of these is a byte: it costs nothing, and tells a caller's proof.
fn are_bytes(bytes: &[u8])
    ensures { input.AreBytes bytes.now }
{
    for index in 0..bytes.len() {
        let _byte = bytes[index];
    }
}

impl Stream {
    /// So many characters more were read, each of which takes one position.
    fn count_bytes(&mut self, count: u32)
        requires { self.old.place + count < 2 ^ 32 }
        ensures { self.new ≡ input.passed_by count self.old }
    {
        self.place += count;
        self.read = self.read.wrapping_add(count);
    }

    /// One character more was read.
    fn count_read(&mut self, reading: Reading)
        requires { self.old.place + reading.steps < 2 ^ 32 }
        ensures { self.new ≡ input.passed reading self.old }
    {
        self.place += reading.steps;
        self.read = self.read.wrapping_add(1);
    }
}

impl Streams {
    /// The code of a stream's next character, which the stream counts; None at its end. A plain
    /// call takes a code above 255 for `?`. BadObject where the stream isn't live; BadArgument
    /// where it isn't open for reading, as no window's is; BadRead where its buffer can't be read.
    pub fn get(&mut self, memory: &Memory, stream: u32) -> Result<Option<u32>, StreamStop>
        ensures value { GivesWithStreams (input.got self.old memory.now stream) self.new result }
        ensures err { OnErr result (self.new ≡ self.old) }
        ensures refusal { TakesNoMemory result }
    {
        match find(&self.streams, stream) {
            None => Err(StreamStop::BadObject),
            Some(at) => match get_by(&self.files, memory, &self.streams[at])? {
                None => Ok(None),
                Some(reading) => {
                    self.streams[at].count_read(reading);
                    Ok(Some(reading.code))
                }
            },
        }
    }

    /// The bytes from its position on, one at least, of a plain stream of a file that is open for
    /// reading: the characters that it gives. None at its end, and of each other stream.
    pub fn bytes_ahead(&self, stream: u32) -> Option<&[u8]>
        ensures value { MatchOption result (input.bytes_ahead self.now stream ≡ None)
            (λ b. input.bytes_ahead self.now stream ≡ Some b.now) }
        ensures bytes { IfSome result (λ b. input.AreBytes b.now) }
        ensures within { IfSome result (λ b. length b.now ≤ 1048576) }
    {
        match find(&self.streams, stream) {
            None => None,
            Some(at) => {
                let bytes = bytes_by(&self.files, &self.streams[at])?;
                are_bytes(bytes);
                Some(bytes)
            }
        }
    }

    /// Reads those bytes, each as a character, to the stream's end; how many they were.
    pub fn pass_ahead(&mut self, stream: u32) -> u32
        ensures { Yields (input.ahead_passed self.old stream) self.new result }
    {
        match find(&self.streams, stream) {
            None => 0,
            Some(at) => match bytes_by(&self.files, &self.streams[at]) {
                None => 0,
                Some(bytes) => {
                    let count = bytes.len() as u32;
                    self.streams[at].count_bytes(count);
                    count
                }
            },
        }
    }
}
