//! The command `check`, which tells what a story's header says.
ghost use Rattle.std.specs.Prelude.{◌≡◌, [], slice_get, Ok, IfOk, string_bytes};
ghost use Rattle.line_talk.specs.Causes.{Rose};
ghost use Rattle.host_top.specs.CheckText.{good_line, hexadecimal, good_story_line, memory_text};
ghost use Rattle.host_top.specs.Speech.{check_speech};
ghost use Rattle.host_top.specs.Spoken.{Spoken};
ghost use Rattle.line_talk.specs.Streams.{SourceState, Wrote};

use crate::once::say_once;
use crate::status::Status;
use glulx_image::Image;
use line_talk::Sink;
use std::alloc::{AllocError, Global};
use story_run::Story;

/// A version in 8 hexadecimal digits.
fn version_text(alloc: Global, version: u32) -> Result<String, AllocError>
    ensures { IfOk result (λ text. string_bytes text ≡ hexadecimal version) }
{
    format!(in alloc; "{version:08X}")
}

/// The boundaries of memory.
fn memory_text(alloc: Global, ram: u32, ext: u32, end: u32) -> Result<String, AllocError>
    ensures { IfOk result (λ text. string_bytes text ≡ memory_text ram ext end) }
{
    format!(in alloc; " ram={ram} ext={ext} end={end}")
}

/// The line of these parts.
fn line_of(
    alloc: Global,
    version: &str,
    memory: &str,
    stack: u32,
    sum: u32,
) -> Result<String, AllocError>
    ensures { IfOk result (λ line. string_bytes line
        ≡ good_story_line version.now memory.now stack sum) }
{
    format!(in alloc; "good version={version}{memory} stack={stack} sum={sum}\n")
}

/// The line of a good story.
fn good_line(alloc: Global, image: &Image<'_>) -> Result<String, AllocError>
    ensures { IfOk result (λ line. string_bytes line ≡ good_line image.now) }
{
    let version = version_text(alloc, image.version())?;
    let memory = memory_text(alloc, image.ramstart(), image.extstart(), image.endmem())?;
    line_of(alloc, &version, &memory, image.stack_size(), image.verify())
}

/// Tells of the first of the stories. No input is read.
pub fn check<K: Sink>(alloc: Global, stories: &[Story<'_>], output: &mut K) -> Status
    ensures value { (input : SourceState) → Spoken (Ok (check_speech (slice_get stories.now 0)))
        input input (K.sink output.old) (K.sink output.new) result }
    ensures read_fault { ¬ (result ≡ Status.ReadFault) }
    ensures write_fault { result ≡ Status.WriteFault
        → Rose (K.sink output.old).faults (K.sink output.new).faults }
    ensures unsaid { result ≡ Status.NoMemory
        → Wrote (K.sink output.old) (K.sink output.new) [] }
{
    let Some(story) = stories.first() else {
        return Status::Done;
    };
    let Ok(line) = good_line(alloc, &story.image) else {
        return Status::NoMemory;
    };
    say_once(line.as_bytes(), output)
}
