//! A world's bytes, and the world of its bytes.

ghost use Rattle.std.specs.Prelude.{◌≡◌, true, IfErr, IfOk};
ghost use Rattle.story_snap.specs.Bytes.{HasBytes, RefusesWorldBytes};

use crate::fields::fields_of;
use crate::world::world_made;
use snap_fields::{SnapFault, read_fields, write_fields};
use std::alloc::{AllocError, Global};
use story_run::{Story, World};

/// The one spelling of a world. The error is want of memory; so is a world that has no bytes, since
/// a list of it has 2^32 items or more.
pub fn to_bytes(alloc: Global, world: &World<'_>) -> Result<Vec<u8>, AllocError>
    ensures value { IfOk result (λ bytes. HasBytes world.now.image bytes.items world.now) }
{
    let fields = fields_of(alloc, world)?;
    let _stage = world.stage();
    match write_fields(alloc, &fields)? {
        Some(bytes) => Ok(bytes),
        None => Err(AllocError),
    }
}

fn are_same(bytes: &[u8], others: &[u8]) -> bool
    ensures only { result ≡ true → bytes.now ≡ others.now }
    ensures found { bytes.now ≡ others.now → result ≡ true }
{
    bytes == others
}

/// The world of the story that has these bytes. `BadSnap` exactly where none has them: what the
/// bytes make is written again, and has to be the same. Memory is taken for what is there.
pub fn from_bytes<'i>(
    alloc: Global,
    bytes: &[u8],
    story: &Story<'i>,
) -> Result<World<'i>, SnapFault>
    ensures value { IfOk result (λ world. HasBytes story.now.image bytes.now world) }
    ensures exact { IfErr result (RefusesWorldBytes story.now.image bytes.now) }
{
    let fields = read_fields(alloc, bytes)?;
    let Some(world) = world_made(alloc, fields, story)? else {
        return Err(SnapFault::BadSnap);
    };
    let again = to_bytes(alloc, &world)?;
    if !are_same(again.as_slice(), bytes) {
        return Err(SnapFault::BadSnap);
    }
    Ok(world)
}
