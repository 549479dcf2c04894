//! A write that is durable before it answers.

ghost use Rattle.std.specs.Prelude.{◌≡◌, ◌+◌, ◌≤◌, IsTrue, IsOk, OnOk, length, max};
ghost use Rattle.disk_model.specs.Disk.{file_written, Only, CountsErrors};
ghost use Rattle.disk_model.specs.Disk.{AfterWrite};
ghost use Rattle.disk_model.specs.Work.{LeavesOnly, SameDisk, MakesCalls};

use crate::{Disk, Failed};

/// Writes, and syncs: two calls of the disk. Each image meanwhile is one from before, with any
/// bytes in the range; after Ok there is one image, which has the piece.
pub fn write_through<D: Disk>(disk: &mut D, place: u64, piece: &[u8]) -> Result<(), Failed>
    ensures ok { OnOk result (IsTrue (D.tells disk.old)
        → Only (file_written (D.seen disk.old) place piece.now) (D.may_leave disk.new)) }
    ensures fits { OnOk result (place + length piece.now ≤ D.room disk.old) }
    ensures works { IsTrue (D.steady disk.old)
        → place + length piece.now ≤ D.room disk.old → IsOk result }
    ensures steady { IsTrue (D.steady disk.old) → IsTrue (D.steady disk.new) }
    ensures cause { CountsErrors result (D.faults disk.old) (D.faults disk.new) }
    ensures crash { IsTrue (D.tells disk.old)
        → LeavesOnly D.Disk disk.old disk.new
        (AfterWrite place (length piece.now) (D.may_leave disk.old)) }
    ensures reach { D.reach disk.new ≡ max (D.reach disk.old) (place + length piece.now) }
    ensures kept { SameDisk D.Disk disk.old disk.new }
    ensures calls { IsTrue (D.tells disk.old)
        → MakesCalls D.Disk (place + length piece.now) 2 result disk.old disk.new }
{
    disk.write_at(place, piece)?;
    disk.sync()?;
    Ok(())
}
