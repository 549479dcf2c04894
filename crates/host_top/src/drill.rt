//! The command `drill`, which plays eight sessions of a host in memory.
ghost use Rattle.std.specs.Prelude.{◌≡◌, [], Ok};
ghost use Rattle.host_drill.specs.Drill.{drill_text};
ghost use Rattle.line_talk.specs.Causes.{Rose};
ghost use Rattle.line_talk.specs.Streams.{SourceState, Wrote};
ghost use Rattle.host_top.specs.Speech.{said_once};
ghost use Rattle.host_top.specs.Spoken.{Spoken};

use crate::once::say_once;
use crate::status::Status;
use line_talk::Sink;
use std::alloc::{AllocError, Global};
use std::sync::Wait;

/// Tells what the drill of a number tells. No input is read.
pub fn drill<R: Wait, K: Sink>(rt: &R, alloc: Global, number: u64, output: &mut K) -> Status
    ensures value { (input : SourceState) → Spoken (Ok (said_once (drill_text number)))
        input input (K.sink output.old) (K.sink output.new) result }
    ensures read_fault { ¬ (result ≡ Status.ReadFault) }
    ensures write_fault { result ≡ Status.WriteFault
        → Rose (K.sink output.old).faults (K.sink output.new).faults }
    ensures unsaid { result ≡ Status.NoMemory
        → Wrote (K.sink output.old) (K.sink output.new) [] }
{
    match host_drill::drill(rt, alloc, number) {
        Ok(text) => say_once(&text, output),
        Err(AllocError) => Status::NoMemory,
    }
}
