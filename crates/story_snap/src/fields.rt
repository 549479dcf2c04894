//! The fields of a world.

ghost use Rattle.std.specs.Prelude.{◌≡◌, IfOk};
ghost use Rattle.story_snap.specs.Bytes.{HasRomsAt, IsWorldOf};
ghost use Rattle.story_snap.specs.Fields as spec;

use glk_dispatch::Glk;
use snap_fields::{Fields, Items, SnapSetup, SnapWaiting};
use snap_machine::{MachineParts, store_of};
use std::alloc::{AllocError, Global};
use story_run::{Stage, World};

fn setup_of(world: &World<'_>) -> SnapSetup
    ensures { result ≡ spec.world_setup world.now }
{
    let glk = world.glk();
    SnapSetup {
        seed: world.seed(),
        cols: glk.cols(),
        rows: glk.rows(),
        budget: world.budget(),
    }
}

fn parts_of(alloc: Global, world: &World<'_>) -> Result<MachineParts, AllocError>
    ensures value { IfOk result (λ parts.
        parts ≡ spec.stage_parts world.now.image world.now.stage) }
    ensures kept { IfOk result (λ _. HasRomsAt world.now.stage) }
{
    match world.stage() {
        Stage::AtSelect(machine) | Stage::AtPrompt(machine) => {
            snap_machine::parts_of(alloc, machine)
        }
        Stage::Quit | Stage::Fault(_) => snap_machine::put_back(alloc, world.image()),
    }
}

fn waiting_of(glk: &Glk, stage: &Stage<'_>) -> SnapWaiting
    ensures { result ≡ spec.waiting_of glk.now stage.now }
{
    match stage {
        Stage::AtSelect(machine) => SnapWaiting::Select {
            reference: glk.event(),
            store: store_of(machine),
        },
        Stage::AtPrompt(machine) => {
            let prompt = glk.prompt();
            SnapWaiting::Prompt {
                usage: prompt.usage,
                mode: prompt.mode,
                rock: prompt.rock,
                store: store_of(machine),
            }
        }
        Stage::Quit => SnapWaiting::Quit,
        Stage::Fault(code) => SnapWaiting::Fault(*code),
    }
}

/// The fields that a world's bytes spell. The error is want of memory.
pub fn fields_of(alloc: Global, world: &World<'_>) -> Result<Fields, AllocError>
    ensures value { IfOk result (λ fields. fields ≡ spec.fields_of world.now) }
    ensures kept { IfOk result (λ _. IsWorldOf world.now.image world.now) }
{
    let _end = world.image().endmem();
    let parts = parts_of(alloc, world)?;
    let glk = snap_glk::fields_of(alloc, world.glk())?;
    let show = Vec::from_slice(alloc, world.last())?;
    Ok(Fields {
        setup: setup_of(world),
        machine: parts.machine,
        settings: parts.settings,
        random: parts.random,
        undo: parts.undo,
        waiting: waiting_of(world.glk(), world.stage()),
        numbers: glk.numbers,
        windows: glk.windows,
        streams: glk.streams,
        filerefs: glk.filerefs,
        files: glk.files,
        show: Items::of(show),
    })
}
