//! The host of a drill.
ghost use Rattle.std.specs.Prelude.{◌≡◌, [], ◌∷◌, IfOk, IsTrue, length};
ghost use Rattle.turn_cell.specs.History.{Each};
ghost use Rattle.disk_model.specs.Memory.{disk_state_in};
ghost use Rattle.snap_store.specs.File.{empty_snapshot_file};
ghost use Rattle.host_drill.specs.Drill.{echo};
ghost use Rattle.host_drill.specs.Drilled.{AreFreshFrom, AreMade, IsDrilled, IsNewFile};

use disk_model::{Disk, MemDisk};
use gate_journal::init;
use host_serve::{Host, Passes};
use snap_store::make;
use std::alloc::{AllocError, Global};
use story_run::Story;

/// The ticks of a turn.
const BUDGET: u64 = 50_000_000;

/// How many sessions a host has.
const SESSIONS: u8 = 64;

/// The disk, which is empty, with a new snapshot file. An error where it failed.
fn made<D: Disk + Drop>(mut disk: D) -> Result<D, AllocError>
    requires tells { IsTrue (D.tells disk) }
    requires empty { D.seen disk ≡ [] }
    ensures ok { IfOk result (λ made. IsNewFile D.Disk made) }
{
    match make(&mut disk) {
        Ok(()) => Ok(disk),
        Err(_) => Err(AllocError),
    }
}

/// The disks of the sessions' snapshots, in memory, each with a new file.
pub fn made_disks(alloc: Global) -> Result<Vec<MemDisk>, AllocError>
    ensures many { IfOk result (λ disks. length disks.items ≡ 64) }
    ensures made { IfOk result
        (λ disks. Each (λ d. (disk_state_in d).seen ≡ empty_snapshot_file) disks.items) }
{
    let mut disks = Vec::new(alloc);
    for _ in 0..SESSIONS {
        disks.push(made(MemDisk::new(alloc))?)?;
    }
    Ok(disks)
}

/// A host over a new journal on this disk, with these disks for snapshots. An error where memory
/// ran out, or a disk failed.
pub fn open_host<'i, D: Disk + Drop>(
    alloc: Global,
    stories: &'i [Story<'i>],
    mut journal: D,
    snaps: Vec<D>,
) -> Result<(Host<'i, D>, Passes<'i, D>), AllocError>
    requires tells { IsTrue (D.tells journal) }
    requires made { AreMade D.Disk snaps.items }
    requires stories { stories.now ≡ echo ∷ [] }
    ensures drilled { IfOk result (λ pair. IsDrilled D.Disk pair.0 pair.1) }
    ensures fresh { IfOk result (λ pair. AreFreshFrom 0 pair.1) }
{
    let Ok(()) = init(&mut journal) else {
        return Err(AllocError);
    };
    match Host::open(alloc, stories, journal, snaps, BUDGET) {
        Ok(opened) => Ok(opened),
        Err(_) => Err(AllocError),
    }
}
