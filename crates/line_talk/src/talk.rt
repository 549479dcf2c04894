//! A conversation over a link.
ghost use Rattle.std.specs.Prelude.{◌≡◌, ◌<◌, ◌||◌, length, min, false};
ghost use Rattle.std.specs.Io.KnownBytes.{IsAtEnd};
ghost use Rattle.line_talk.specs.Causes.{Rose};
ghost use Rattle.line_talk.specs.Streams.{Gave, bytes_got, is_end, IsCountWithin};
ghost use Rattle.line_talk.specs.Talked.{Talked};

use crate::answers::Answers;
use crate::ended::Ended;
use crate::hear::{Heard, hear};
use crate::line_buffer::LineBuffer;
use crate::link::Link;
use crate::sink::Stop;
use crate::source::{Got, Source};
use std::alloc::Global;

/// The most bytes of a connection.
const MOST_BYTES: usize = 1 << 31;

/// Reads at most so many bytes into the front of the buffer.
fn read_at_most<S: Source>(input: &mut S, buffer: &mut [u8], most: usize) -> Got
    requires buffer { 0 < length buffer.old }
    requires most { 0 < most }
    ensures within { IsCountWithin result (min most (length buffer.new)) }
    ensures value { Gave (S.source input.old) (S.source input.new) (bytes_got result buffer.new) }
    ensures at_end { result ≡ Got.End → IsAtEnd (S.source input.new).left }
    ensures ended { (S.source input.new).ended ≡ ((S.source input.old).ended || is_end result) }
    ensures beside { S.beside input.new ≡ S.beside input.old }
    ensures cause { result ≡ Got.Failed
        → Rose (S.source input.old).faults (S.source input.new).faults }
{
    let want = most.min(buffer.len());
    input.read(&mut buffer[..want])
}

/// Reads lines and answers them until no more are answered, the input ends or a limit is reached.
/// The buffer is the room for one read.
pub fn converse<A: Answers, L: Link>(
    alloc: Global,
    speaker: &mut A,
    link: &mut L,
    buffer: &mut [u8],
) -> Ended
    requires going { A.over (A.state speaker.old) ≡ false }
    requires invariant { A.invariant speaker.old }
    requires buffer { 0 < length buffer.old }
    ensures value { Talked A.turn A.cut A.over (A.state speaker.old) (A.state speaker.new)
        (L.source link.old) (L.source link.new) (L.sink link.old) (L.sink link.new) result }
    ensures ended { ¬ (result ≡ Ended.End)
        → (L.source link.new).ended ≡ (L.source link.old).ended }
    ensures read_fault { result ≡ Ended.ReadFault
        → Rose (L.source link.old).faults (L.source link.new).faults }
    ensures write_fault { result ≡ Ended.WriteFault
        → Rose (L.sink link.old).faults (L.sink link.new).faults }
    ensures invariant { A.invariant speaker.new }
    ensures lent { A.lent speaker.new ≡ A.lent speaker.old }
    ensures link { L.lent link.new ≡ L.lent link.old }
{
    let Ok(()) = speaker.make_room(alloc) else {
        return Ended::NoMemory;
    };
    let mut line = LineBuffer::new(alloc);
    let mut count = 0;
    let mut room = MOST_BYTES;
    while room > 0 {
        let size = match read_at_most(link, buffer, room) {
            Got::Bytes(size) => size,
            Got::End => return Ended::End,
            Got::Failed => return Ended::ReadFault,
        };
        room -= size;
        let (piece, _) = buffer.split_at(size);
        match hear(alloc, speaker, &mut line, &mut count, piece, link) {
            Ok(Heard::More) => {}
            Ok(Heard::Over) => return Ended::End,
            Ok(Heard::Limit) => return Ended::LineLimit,
            Err(stop) => return stop.ended(),
        }
    }
    Ended::LineLimit
}
