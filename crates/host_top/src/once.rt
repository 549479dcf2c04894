//! Texts that are written whatever the input.
ghost use Rattle.std.specs.Prelude.{◌≡◌, [], Ok};
ghost use Rattle.line_talk.specs.Causes.{Rose};
ghost use Rattle.host_top.specs.Speech.{said_once};
ghost use Rattle.host_top.specs.Spoken.{Spoken};
ghost use Rattle.line_talk.specs.Streams.{SourceState, Wrote};

use crate::status::Status;
use line_talk::{Sink, write_all};

/// Writes a text. No input is read.
pub fn say_once<K: Sink>(text: &[u8], output: &mut K) -> Status
    ensures value { (input : SourceState) → Spoken (Ok (said_once text.now))
        input input (K.sink output.old) (K.sink output.new) result }
    ensures read_fault { ¬ (result ≡ Status.ReadFault) }
    ensures write_fault { result ≡ Status.WriteFault
        → Rose (K.sink output.old).faults (K.sink output.new).faults }
    ensures unsaid { result ≡ Status.NoMemory
        → Wrote (K.sink output.old) (K.sink output.new) [] }
{
    match write_all(output, text) {
        Ok(()) => Status::Done,
        Err(stop) => Status::of_stop(stop),
    }
}
