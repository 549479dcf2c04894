//! A world made again from a snapshot and the inputs behind it (own).

ghost use Rattle.std.specs.Prelude.{◌≡◌, ◌≤◌, IsTrue, IfOk, IfSome, MatchOption};
ghost use Rattle.disk_model.specs.Work.{EachImage, OnlyLooks};
ghost use Rattle.story_snap.specs.Bytes.{HasBytes, HasNoWorld};
ghost use Rattle.snap_store.specs.Store.{IsGiven, IsImageOf, store_area};
ghost use Rattle.snap_store.specs.declared.side.Side.{Side};
ghost use Rattle.session_saves.specs.Game.{inputs_of};
ghost use Rattle.session_saves.specs.Warming.{BeginsWith, FindsArea, Warms};

use crate::game::behind;
use disk_model::Disk;
use gate_journal::Command;
use session_core::play_on;
use snap_fields::SnapFault;
use snap_store::{Area, NewestFault, Store};
use std::alloc::{AllocError, Global};
use std::sync::ledger::Ledger;
use story_run::{Setup, Steps, Story, World};
use story_snap::from_bytes;

/// The newest open area of this OPEN row with a count of at most `most`; none where the disk fails.
pub fn found<D: Disk>(
    alloc: Global,
    store: &mut Store<D>,
    place: u64,
    most: u32,
) -> Result<Option<Area>, AllocError>
    ensures value { IfOk result (λ area. FindsArea (D.tells store.old.disk) (D.seen store.old.disk)
        place most (D.faults store.old.disk) (D.faults store.new.disk) area) }
    ensures given { IfOk result (λ area. IsTrue (D.tells store.old.disk)
        → IfSome area (IsGiven D.seen store.old place most)) }
    ensures counts { D.faults store.old.disk ≤ D.faults store.new.disk }
    ensures areas { (side : Side) → IsTrue (D.tells store.old.disk)
        → store_area D.seen store.new side ≡ store_area D.seen store.old side }
    ensures images { EachImage D.Disk store.new.disk (IsImageOf D.seen store.new) }
    ensures kept { OnlyLooks D.Disk store.old.disk store.new.disk }
    ensures slots { (store.new.made ≡ store.old.made) × (store.new.slots ≡ store.old.slots) }
{
    match store.newest(alloc, place, most) {
        Ok(area) => Ok(area),
        Err(NewestFault::DiskFault(_)) => Ok(None),
        Err(NewestFault::NoMemory) => Err(AllocError),
    }
}

/// The world of an area's bytes, where they have one.
fn world_in<'i>(
    alloc: Global,
    story: &Story<'i>,
    area: &Area,
) -> Result<Option<World<'i>>, AllocError>
    ensures { IfOk result (λ world. MatchOption world
        (HasNoWorld story.now.image area.now.bytes)
        (HasBytes story.now.image area.now.bytes)) }
{
    match from_bytes(alloc, area.bytes.as_slice(), story) {
        Ok(world) => Ok(Some(world)),
        Err(SnapFault::BadSnap) => Ok(None),
        Err(SnapFault::NoMemory) => Err(AllocError),
    }
}

/// The world with which a warming begins, and how many inputs are behind it.
fn begin<'i>(
    alloc: Global,
    story: &Story<'i>,
    setup: Setup,
    area: &Option<Area>,
) -> Result<(u32, World<'i>), AllocError>
    ensures { IfOk result (λ b. BeginsWith story.now setup area.now
        (record { count = b.0; world = b.1 })) }
{
    if let Some(area) = area {
        if let Some(world) = world_in(alloc, story, area)? {
            return Ok((area.count, world));
        }
    }
    let world = World::start(alloc, story, setup)?;
    Ok((0, world))
}

/// The world that a game of this story has come to, from an area on, or from the start where there
/// is none or its bytes have no world. Each turn is one step.
pub fn play<'i, L: Ledger>(
    alloc: Global,
    story: &Story<'i>,
    setup: Setup,
    game: &[Command],
    area: &Option<Area>,
    steps: &mut Steps<L>,
) -> Result<World<'i>, AllocError>
    ensures { IfOk result (λ world. Warms story.now setup (inputs_of game.now) area.now world
        steps.old steps.new) }
{
    let (count, world) = begin(alloc, story, setup, area)?;
    play_on(alloc, world, behind(game, count), steps)
}
