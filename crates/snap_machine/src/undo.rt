//! The states that undo keeps, as fields.

ghost use Rattle.std.specs.Prelude.{◌≡◌, IfOk, map};
ghost use Rattle.snap_machine.specs.Fields as spec;
ghost use Rattle.snap_machine.specs.Parts.{kept_fields};

use glulx_image::Image;
use snap_fields::{Items, UndoState};
use std::alloc::{AllocError, Global};
use vm_undo::{Blocks, Contents, KeptState, StackBytes, Undo};

/// The fields of states that are kept, in their order.
pub fn undo_fields_of(alloc: Global, states: &[KeptState]) -> Result<Items<UndoState>, AllocError>
    ensures { IfOk result (λ fields. fields ≡ map kept_fields states.now) }
{
    let mut fields = Vec::new(alloc);
    for state in states {
        let field = state_fields(alloc, state)?;
        fields.push(field)?;
    }
    Ok(Items::of(fields))
}

fn state_fields(alloc: Global, state: &KeptState) -> Result<UndoState, AllocError>
    ensures { IfOk result (λ fields. fields ≡ kept_fields state.now) }
{
    Ok(UndoState {
        contents: Items::of(Vec::from_slice(alloc, state.contents.as_slice())?),
        stack: Items::of(Vec::from_slice(alloc, state.stack.as_slice())?),
        heap_start: state.heap_start,
        heap: Items::of(Vec::from_slice(alloc, state.heap.as_slice())?),
    })
}

/// What undo keeps by the fields of its states, the oldest first. None where one of them isn't one
/// that may be kept of the story, or where they pass a limit.
pub fn undo_of<'i>(
    alloc: Global,
    fields: &[UndoState],
    image: &Image<'i>,
) -> Result<Option<Undo<'i>>, AllocError>
    ensures { IfOk result (λ undo. undo ≡ spec.undo_of image.now fields.now) }
{
    let mut states = Vec::new(alloc);
    for state in fields {
        let kept = kept_state(alloc, state)?;
        states.push(kept)?;
    }
    let rom = &image.bytes()[..image.extstart() as usize];
    Ok(Undo::of_states(rom, image.ramstart(), image.endmem(), states))
}

fn kept_state(alloc: Global, state: &UndoState) -> Result<KeptState, AllocError>
    ensures { IfOk result (λ kept. kept ≡ spec.kept_state state.now) }
{
    let contents = Vec::from_slice(alloc, state.contents.as_slice())?;
    let stack = Vec::from_slice(alloc, state.stack.as_slice())?;
    let heap = Vec::from_slice(alloc, state.heap.as_slice())?;
    Ok(KeptState {
        contents: Contents::of(contents),
        stack: StackBytes::of(stack),
        heap: Blocks::of(heap),
        heap_start: state.heap_start,
    })
}
