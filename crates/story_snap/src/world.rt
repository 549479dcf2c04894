//! The world of its fields.

ghost use Rattle.std.specs.Prelude.{◌≡◌, IfOk, IfSome, IsSome, Some};
ghost use Rattle.story_run.specs.World.{WorldState};
ghost use Rattle.story_snap.specs.Bytes.{IsWorldOf};
ghost use Rattle.story_snap.specs.Fields.{all_fields, fields_of};
ghost use Rattle.story_snap.specs.Made as spec;

use glk_dispatch::Prompt;
use glulx_image::Image;
use snap_fields::{Fields, SnapSetup, SnapWaiting};
use snap_glk::{GlkFields, glk_of};
use snap_machine::{MachineParts, machine_fields_of};
use std::alloc::{AllocError, Global};
use story_run::{StageFields, Story, World, WorldFields};
use story_text::Bytes;

fn event_in(waiting: SnapWaiting) -> u32
    ensures { result ≡ spec.event_in waiting }
{
    match waiting {
        SnapWaiting::Select { reference, .. } => reference,
        SnapWaiting::Quit | SnapWaiting::Fault(_) | SnapWaiting::Prompt { .. } => 0,
    }
}

fn prompt_in(waiting: SnapWaiting) -> Prompt
    ensures { result ≡ spec.prompt_in waiting }
{
    match waiting {
        SnapWaiting::Prompt {
            usage,
            mode,
            rock,
            ..
        } => Prompt { usage, mode, rock },
        SnapWaiting::Quit | SnapWaiting::Fault(_) | SnapWaiting::Select { .. } => Prompt {
            usage: 0,
            mode: 0,
            rock: 0,
        },
    }
}

// Where the story with this image, begun with this seed, waits, or how it ended.
fn stage_made<'i>(
    alloc: Global,
    image: &Image<'i>,
    seed: u64,
    parts: &MachineParts,
    waiting: SnapWaiting,
) -> Result<Option<StageFields<'i>>, AllocError>
    ensures { IfOk result (λ stage. stage
        ≡ spec.stage_made image.now seed parts.now waiting) }
{
    match waiting {
        SnapWaiting::Quit => Ok(Some(StageFields::Quit)),
        SnapWaiting::Fault(code) => Ok(Some(StageFields::Fault(code))),
        SnapWaiting::Select { store, .. } => {
            let fields = machine_fields_of(alloc, image, seed, parts, store)?;
            Ok(fields.map(StageFields::AtSelect))
        }
        SnapWaiting::Prompt { store, .. } => {
            let fields = machine_fields_of(alloc, image, seed, parts, store)?;
            Ok(fields.map(StageFields::AtPrompt))
        }
    }
}

// The world of the story that has these parts of fields.
fn world_of_parts<'i>(
    alloc: Global,
    setup: SnapSetup,
    parts: &MachineParts,
    waiting: SnapWaiting,
    glk_fields: &GlkFields,
    last: Bytes,
    story: &Story<'i>,
) -> Result<Option<World<'i>>, AllocError>
    ensures value { IfOk result (λ made. IfSome made (λ world.
        spec.world_made story.now.image
        (all_fields setup parts.now waiting glk_fields.now last) ≡ Some world)) }
    ensures found { (w : WorldState) → IsWorldOf story.now.image w
        → all_fields setup parts.now waiting glk_fields.now last ≡ fields_of w
        → IfOk result (λ made. IsSome made) }
{
    let (event, prompt) = (event_in(waiting), prompt_in(waiting));
    let Some(glk) = glk_of(alloc, setup.cols, setup.rows, event, prompt, glk_fields)? else {
        return Ok(None);
    };
    let Some(stage) = stage_made(alloc, &story.image, setup.seed, parts, waiting)? else {
        return Ok(None);
    };
    let fields = WorldFields {
        seed: setup.seed,
        budget: setup.budget,
        glk,
        stage,
        last,
    };
    World::of_fields(alloc, story, fields)
}

/// The world of the story that has these fields. None where the story can have none. The error is
/// want of memory.
pub fn world_made<'i>(
    alloc: Global,
    fields: Fields,
    story: &Story<'i>,
) -> Result<Option<World<'i>>, AllocError>
    ensures value { IfOk result (λ made. IfSome made (λ world.
        spec.world_made story.now.image fields ≡ Some world)) }
    ensures found { (w : WorldState) → IsWorldOf story.now.image w
        → fields ≡ fields_of w → IfOk result (λ made. IsSome made) }
{
    let parts = MachineParts {
        machine: fields.machine,
        settings: fields.settings,
        random: fields.random,
        undo: fields.undo,
    };
    let glk_fields = GlkFields {
        numbers: fields.numbers,
        windows: fields.windows,
        streams: fields.streams,
        filerefs: fields.filerefs,
        files: fields.files,
    };
    let last = Bytes::of(fields.show.into_vec());
    world_of_parts(
        alloc,
        fields.setup,
        &parts,
        fields.waiting,
        &glk_fields,
        last,
        story,
    )
}
