//! A snapshot that is put (own).

ghost use Rattle.std.specs.Prelude.{◌≡◌, ◌≤◌, ◌+◌, IsTrue, max, IfErr, OnOk, true};
ghost use Rattle.disk_model.specs.Work.{EachImage, LeavesOnly, SameDisk};
ghost use Rattle.snap_store.specs.Store.{IsImageOf};
ghost use Rattle.session_saves.specs.Keeping.{AddsOnly, FailedPutLeaves, MayStandMeanwhile};
ghost use Rattle.session_saves.specs.Keeping.{Prevents, PutsWorld};

use crate::missed::Cause;
use disk_model::Disk;
use snap_store::{MAX_SNAPSHOT, Store};
use std::alloc::Global;
use story_run::World;
use story_snap::to_bytes;

/// Puts the snapshot of a world of this OPEN row after so many inputs.
pub fn put<D: Disk>(
    alloc: Global,
    store: &mut Store<D>,
    world: &World<'_>,
    place: u64,
    count: u32,
) -> Result<(), Cause>
    ensures ok { OnOk result (PutsWorld D.Disk world.now place count store.old store.new) }
    ensures cause { IfErr result (λ cause. Prevents cause store.old.made world.now
        (D.faults store.old.disk) (D.faults store.new.disk)) }
    ensures err { IfErr result (λ cause. FailedPutLeaves cause store.old store.new) }
    ensures counts { D.faults store.old.disk ≤ D.faults store.new.disk }
    ensures areas { IsTrue (D.tells store.old.disk)
        → AddsOnly D.seen world.now place count store.old store.new }
    ensures crash { IsTrue (D.tells store.old.disk)
        → LeavesOnly D.Disk store.old.disk store.new.disk
        (MayStandMeanwhile D.seen world.now place count store.old) }
    ensures images { EachImage D.Disk store.new.disk (IsImageOf D.seen store.new) }
    ensures reach { D.reach store.new.disk ≤ max (D.reach store.old.disk) 16781344 }
    ensures kept { SameDisk D.Disk store.old.disk store.new.disk
        × (store.new.made ≡ store.old.made) }
{
    if !store.is_made() {
        return Err(Cause::NotMade);
    }
    let Ok(bytes) = to_bytes(alloc, world) else {
        return Err(Cause::NoMemory);
    };
    if bytes.len() > MAX_SNAPSHOT as usize {
        return Err(Cause::TooLong);
    }
    match store.put(place, count, bytes.as_slice()) {
        Ok(()) => Ok(()),
        Err(_) => Err(Cause::DiskFailed),
    }
}
