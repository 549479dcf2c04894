//! The command `run`, which plays one story alone.
ghost use Rattle.std.specs.Prelude.{◌≡◌, ◌<◌, length, slice_get, Ok};
ghost use Rattle.line_talk.specs.Causes.{Rose};
ghost use Rattle.host_top.specs.RunText.{setup_alone};
ghost use Rattle.host_top.specs.Speech.{run_speech};
ghost use Rattle.host_top.specs.Spoken.{Spoken};

use crate::player::{Player, say};
use crate::status::Status;
use line_talk::{Sink, Source, converse_between};
use std::alloc::Global;
use story_run::{Setup, Story, World};

/// A story that is played alone.
fn alone(budget: u64) -> Setup
    ensures { result ≡ setup_alone budget }
{
    Setup {
        seed: 1,
        cols: 80,
        rows: 24,
        budget,
    }
}

/// Plays the first of the stories.
pub fn run<S: Source, K: Sink>(
    alloc: Global,
    stories: &[Story<'_>],
    budget: u64,
    input: &mut S,
    output: &mut K,
    buffer: &mut [u8],
) -> Status
    requires buffer { 0 < length buffer.old }
    ensures value { Spoken (Ok (run_speech (slice_get stories.now 0) budget))
        (S.source input.old) (S.source input.new) (K.sink output.old) (K.sink output.new) result }
    ensures read_fault { result ≡ Status.ReadFault
        → Rose (S.source input.old).faults (S.source input.new).faults }
    ensures write_fault { result ≡ Status.WriteFault
        → Rose (K.sink output.old).faults (K.sink output.new).faults }
{
    let Some(story) = stories.first() else {
        return Status::Done;
    };
    let Ok(world) = World::start(alloc, story, alone(budget)) else {
        return Status::NoMemory;
    };
    match say(output, &world) {
        Ok(()) => {}
        Err(stop) => return Status::of_stop(stop),
    }
    if world.is_over() {
        return Status::Done;
    }
    let mut player = Player::new(world);
    Status::of_end(converse_between(alloc, &mut player, input, output, buffer))
}
