//! A disk that dies: that the calls which are left are made.

use disk_model::{Disk, Failed, MemDisk};
use dying_disk::Dying;
use std::alloc::{AllocError, Global};
use std::test::Fail;

// Whether a write and a sync are made, a write more, and no call from then on.
fn dies(disk: &mut Dying<MemDisk>) -> bool {
    disk.write_at(0, b"ab") == Ok(())
        && disk.sync() == Ok(())
        && disk.write_at(1, b"XY") == Ok(())
        && disk.sync() == Err(Failed)
        && disk.size() == Err(Failed)
        && disk.write_at(0, b"Z") == Err(Failed)
        && disk.faults() == 3
}

// What stands at place 1 of an image of the disk then.
fn left(alloc: Global, choice: u64) -> Result<Option<u8>, AllocError> {
    let mut disk = Dying::new(MemDisk::new(alloc), 3);
    if !dies(&mut disk) {
        return Ok(None);
    }
    let mut image = disk.into_disk().after_stop(alloc, choice)?;
    let mut byte = [9];
    Ok(image.read_at(1, &mut byte).ok().map(|()| byte[0]))
}

#[test]
fn a_disk_dies_behind_its_last_call(rt: HostRuntime) -> Result<(), Fail> {
    assert!(rt; left(rt.alloc(), 0)? == Some(b'b'));
    assert!(rt; left(rt.alloc(), 31)? == Some(b'X'));
    Ok(())
}
