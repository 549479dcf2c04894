//! What a snapshot keeps of a world, and the world that it makes.

ghost use Rattle.std.specs.Prelude.{◌≡◌, IfOk, IfSome, IsSome};
ghost use Rattle.glk_dispatch.specs.Valid.{IsValidGlk};
ghost use Rattle.story_run.specs.Fields.{stage_of, world_of_fields};
ghost use Rattle.story_run.specs.World.{IsResting, IsStageOf, IsValidWorld};
ghost use Rattle.vm_exec.specs.Fields as vm;

use crate::stage::Stage;
use crate::world::{Held, hold};
use crate::{Story, World};
use glk_dispatch::Glk;
use glulx_image::Image;
use std::alloc::{AllocError, Global};
use story_text::Bytes;
use vm_exec::{Machine, MachineFields};
use vm_memory::faults;

/// How a turn came to rest: where the story waits, what its machine has beside its image.
#[derive(Drop)]
pub enum StageFields<'i> {
    AtSelect(MachineFields<'i>),
    AtPrompt(MachineFields<'i>),
    Quit,
    Fault(u8),
}

/// What a world has beside its image.
#[derive(Drop)]
pub struct WorldFields<'i> {
    pub seed: u64,
    pub budget: u64,
    pub glk: Glk,
    pub stage: StageFields<'i>,
    pub last: Bytes,
}

impl<'i> World<'i> {
    /// The world of the story that has these fields, between two turns. None exactly where no world
    /// of the story has them. An error is want of memory.
    pub fn of_fields(
        alloc: Global,
        story: &Story<'i>,
        fields: WorldFields<'i>,
    ) -> Result<Option<World<'i>>, AllocError>
        requires { IsValidGlk fields.glk }
        ensures value { IfOk result (λ world. IfSome world (λ w.
            w ≡ world_of_fields story.now.image fields.entry)) }
        ensures valid { IfOk result (λ world. IfSome world IsValidWorld) }
        ensures found { IsValidWorld (world_of_fields story.now.image fields.entry)
            → IfOk result (λ world. IsSome world) }
    {
        let WorldFields {
            seed,
            budget,
            mut glk,
            stage,
            last,
        } = fields;
        let Some(stage) = stage_of(&story.image, seed, stage) else {
            return Ok(None);
        };
        if !glk.waits_for(stage.answer()) {
            return Ok(None);
        }
        glk.begin_turn();
        let image = story.image.lend();
        let world = hold(
            alloc,
            Held {
                image,
                seed,
                budget,
                glk,
                stage,
                last,
            },
        )?;
        Ok(Some(world))
    }
}

// The stage of these fields, in the story with this image that was begun with this seed.
fn stage_of<'i>(image: &Image<'i>, seed: u64, fields: StageFields<'i>) -> Option<Stage<'i>>
    ensures value { IfSome result (λ stage. stage ≡ stage_of image.now fields.entry) }
    ensures kept { IfSome result (λ stage. IsStageOf image.now seed stage) }
    ensures found { IsStageOf image.now seed (stage_of image.now fields.entry)
        → IsSome result }
{
    match fields {
        StageFields::AtSelect(fields) => match machine_of(image, seed, fields) {
            Some(machine) => Some(Stage::AtSelect(machine)),
            None => None,
        },
        StageFields::AtPrompt(fields) => match machine_of(image, seed, fields) {
            Some(machine) => Some(Stage::AtPrompt(machine)),
            None => None,
        },
        StageFields::Quit => Some(Stage::Quit),
        StageFields::Fault(code) => {
            if faults::BAD_READ <= code && code <= faults::BUDGET_SPENT {
                Some(Stage::Fault(code))
            } else {
                None
            }
        }
    }
}

// The machine of these fields, in a story that was begun with this seed.
fn machine_of<'i>(image: &Image<'i>, seed: u64, fields: MachineFields<'i>) -> Option<Machine<'i>>
    ensures value { IfSome result (λ machine. machine ≡ vm.machine_of image.now fields.entry) }
    ensures kept { IfSome result (λ machine. IsResting image.now seed machine) }
    ensures found { IsResting image.now seed (vm.machine_of image.now fields.entry)
        → IsSome result }
{
    if fields.random.seed != seed {
        return None;
    }
    let _size = fields.stack.size();
    Machine::of_fields(image, fields)
}
