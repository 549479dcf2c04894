//! The line by which a story is refused.
ghost use Rattle.std.specs.Prelude.{◌≡◌, [], Err, OnOk, IfOk, IfErr, string_bytes};
ghost use Rattle.line_talk.specs.Causes.{Rose};
ghost use Rattle.host_top.specs.Spoken.{Spoken};
ghost use Rattle.line_talk.specs.Streams.{SourceState, Wrote};
ghost use Rattle.line_talk.specs.Writing.{Stopped};
ghost use Rattle.host_top.specs.StoryFile.{bad_container, bad_image, bad_line};

use crate::status::Status;
use crate::stories::Refusal;
use crate::story_file::StoryFault;
use line_talk::{Sink, Stop, write_all};
use std::alloc::{AllocError, Global};

/// The line for an image that is refused, by the story's position and the fault's number.
fn bad_image(alloc: Global, story: usize, number: u8) -> Result<String, AllocError>
    ensures { IfOk result (λ line. string_bytes line ≡ bad_image story number) }
{
    format!(in alloc; "bad {story} image {number}\n")
}

/// The line for a container that is refused.
fn bad_container(alloc: Global, story: usize, number: u8) -> Result<String, AllocError>
    ensures { IfOk result (λ line. string_bytes line ≡ bad_container story number) }
{
    format!(in alloc; "bad {story} blorb {number}\n")
}

/// The line for a story that is refused, by its position and its fault.
fn bad_line(alloc: Global, refusal: Refusal) -> Result<String, AllocError>
    ensures { IfOk result (λ line. string_bytes line ≡ bad_line refusal.story refusal.fault) }
{
    match refusal.fault {
        StoryFault::Image(fault) => bad_image(alloc, refusal.story, fault.number()),
        StoryFault::Blorb(fault) => bad_container(alloc, refusal.story, fault.number()),
    }
}

/// Writes the line for a story that is refused.
fn say_bad<K: Sink>(alloc: Global, refusal: Refusal, output: &mut K) -> Result<(), Stop>
    ensures ok { OnOk result (Wrote (K.sink output.old) (K.sink output.new)
        (bad_line refusal.story refusal.fault)) }
    ensures err { IfErr result (λ cause. Stopped (K.sink output.old) (K.sink output.new)
        (bad_line refusal.story refusal.fault) cause) }
    ensures unsaid { result ≡ Err Stop.Memory → Wrote (K.sink output.old) (K.sink output.new) [] }
{
    let line = bad_line(alloc, refusal)?;
    write_all(output, line.as_bytes())
}

/// Refuses a story. No input is read.
pub fn refuse<K: Sink>(alloc: Global, refusal: Refusal, output: &mut K) -> Status
    ensures value { (input : SourceState) → Spoken (Err (bad_line refusal.story refusal.fault))
        input input (K.sink output.old) (K.sink output.new) result }
    ensures read_fault { ¬ (result ≡ Status.ReadFault) }
    ensures write_fault { result ≡ Status.WriteFault
        → Rose (K.sink output.old).faults (K.sink output.new).faults }
    ensures unsaid { result ≡ Status.NoMemory
        → Wrote (K.sink output.old) (K.sink output.new) [] }
{
    match say_bad(alloc, refusal, output) {
        Ok(()) => Status::Refused,
        Err(stop) => Status::of_stop(stop),
    }
}
