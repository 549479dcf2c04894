//! Looking for an area, and reading it (own).

ghost use Rattle.std.specs.Prelude.{◌≡◌, ◌+◌, ◌≤◌, ℕ, IsTrue, IfOk, IfErr, OnOk};
ghost use Rattle.std.specs.Prelude.{length, take, drop};
ghost use Rattle.snap_store.specs.File.{newest_area, area_given};
ghost use Rattle.disk_model.specs.Work.{OnlyLooks};
ghost use Rattle.snap_store.specs.Frames.{HasNewestCause};

use crate::area::Area;
use crate::fault::{DiskFault, NewestFault};
use crate::outline::outline_in;
use disk_model::Disk;
use std::alloc::Global;
use story_text::Bytes;

/// The fault of a disk that failed in a call which began at this count.
pub fn fault_since<D: Disk>(disk: &D, from: u64) -> DiskFault
    ensures { (result.from ≡ from) × (result.to ≡ D.faults disk.now) }
{
    DiskFault {
        from,
        to: disk.faults(),
    }
}

// So many bytes from this place on.
fn read_bytes<D: Disk>(
    alloc: Global,
    disk: &mut D,
    start: u64,
    count: u32,
) -> Result<Bytes, NewestFault>
    ensures ok { IfOk result (λ bytes. IsTrue (D.tells disk.old)
        → start + count ≤ length (D.seen disk.old)
        → bytes ≡ take count (drop start (D.seen disk.old))) }
    ensures works { IsTrue (D.steady disk.old)
        → IfErr result (λ e. e ≡ NewestFault.NoMemory) }
    ensures cause { IfErr result (HasNewestCause (D.faults disk.old) (D.faults disk.new)) }
    ensures faults { IfOk result (λ _. D.faults disk.new ≡ D.faults disk.old) }
    ensures kept { OnlyLooks D.Disk disk.old disk.new }
{
    let from = disk.faults();
    let Ok(mut bytes) = vec![in alloc; 0; count as usize] else {
        return Err(NewestFault::NoMemory);
    };
    let Ok(()) = disk.read_at(start, bytes.as_mut_slice()) else {
        return Err(NewestFault::DiskFault(fault_since(disk, from)));
    };
    Ok(Bytes::of(bytes))
}

/// The newest open area of this OPEN row with a count of at most `most`, in at most five calls of
/// the disk.
pub fn find<D: Disk>(
    alloc: Global,
    disk: &mut D,
    place: u64,
    most: u32,
) -> Result<Option<Area>, NewestFault>
    ensures ok { IfOk result (λ area. IsTrue (D.tells disk.old)
        → area ≡ area_given (newest_area place most (D.seen disk.old))) }
    ensures works { IsTrue (D.steady disk.old)
        → IfErr result (λ e. e ≡ NewestFault.NoMemory) }
    ensures cause { IfErr result (HasNewestCause (D.faults disk.old) (D.faults disk.new)) }
    ensures faults { IfOk result (λ _. D.faults disk.new ≡ D.faults disk.old) }
    ensures kept { OnlyLooks D.Disk disk.old disk.new }
{
    let from = disk.faults();
    let Ok(outline) = outline_in(disk) else {
        return Err(NewestFault::DiskFault(fault_since(disk, from)));
    };
    let Some(side) = outline.newest(place, most) else {
        return Ok(None);
    };
    let head = outline.head(side);
    let bytes = read_bytes(alloc, disk, side.start() + 16, head.length)?;
    Ok(Some(Area {
        count: head.count,
        bytes,
    }))
}
