//! A new snapshot file (own).

ghost use Rattle.std.specs.Prelude.{◌≡◌, ◌≤◌, ◌++◌, IsTrue, IsOk, OnOk, IfErr, length, max, drop};
ghost use Rattle.disk_model.specs.Disk.{Only, file_written, AfterWrite};
ghost use Rattle.disk_model.specs.Work.{LeavesOnly, SameDisk, MakesCalls};
ghost use Rattle.snap_store.specs.File.{snapshot_header, empty_snapshot_file};
ghost use Rattle.snap_store.specs.Frames.{IsFaultOfDisk};

use crate::fault::DiskFault;
use crate::find::fault_since;
use crate::outline::{HEADER, PAGE};
use disk_model::{Disk, write_through};

// The header, at the front.
fn put_header(page: &mut [u8])
    requires { 8 ≤ length page.old }
    ensures { page.new ≡ snapshot_header ++ drop 8 page.old }
{
    page[..8].copy_from_slice(&HEADER);
}

// The header, and zeros.
fn first_page() -> [u8; PAGE]
    ensures { result ≡ empty_snapshot_file }
{
    let mut page = [0; PAGE];
    put_header(&mut page);
    page
}

/// Writes a file with both areas closed: the header, and zeros up to 4,096 bytes. Two calls of the
/// disk. Whatever stands behind these bytes stays.
pub fn make<D: Disk>(disk: &mut D) -> Result<(), DiskFault>
    ensures ok { OnOk result (IsTrue (D.tells disk.old)
        → Only (file_written (D.seen disk.old) 0 empty_snapshot_file) (D.may_leave disk.new)) }
    ensures value { OnOk result (IsTrue (D.tells disk.old) → length (D.seen disk.old) ≤ 4096
        → Only empty_snapshot_file (D.may_leave disk.new)) }
    ensures works { IsTrue (D.steady disk.old) → 4096 ≤ D.room disk.old → IsOk result }

    // only where the disk failed in this call
    ensures cause { IfErr result (IsFaultOfDisk (D.faults disk.old) (D.faults disk.new)) }
    ensures faults { OnOk result (D.faults disk.new ≡ D.faults disk.old) }

    // meanwhile each image is one from before, with any bytes in the first 4,096
    ensures crash { IsTrue (D.tells disk.old)
        → LeavesOnly D.Disk disk.old disk.new (AfterWrite 0 4096 (D.may_leave disk.old)) }
    ensures reach { D.reach disk.new ≡ max (D.reach disk.old) 4096 }
    ensures kept { SameDisk D.Disk disk.old disk.new }
    // by two device calls, or the first of them up to one that failed
    ensures calls { IsTrue (D.tells disk.old)
        → MakesCalls D.Disk 4096 2 result disk.old disk.new }
{
    let from = disk.faults();
    let Ok(()) = write_through(disk, 0, &first_page()) else {
        return Err(fault_since(disk, from));
    };
    Ok(())
}
