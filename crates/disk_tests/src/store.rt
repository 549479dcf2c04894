//! A store on a disk that has no room for a second area.

use disk_model::FlatDisk;
use snap_store::{Area, DiskFault, NewestFault, Store, make};
use std::alloc::Global;
use std::test::Fail;

const OPEN_ROW: u64 = 16;

// It is an area of this count and these bytes.
fn is_whole(area: &Result<Option<Area>, NewestFault>, count: u32, bytes: &[u8]) -> bool {
    match area {
        Ok(Some(area)) => area.count == count && area.bytes.as_slice() == bytes,
        _ => false,
    }
}

// A store on a disk with room for a header and one area.
fn tight(alloc: Global) -> Result<Box<Store<FlatDisk>>, Fail> {
    let mut disk = FlatDisk::new(alloc, 4096 + 16 + 3)?;
    make(&mut disk).ok().ok_or("make")?;
    let store = Store::open(disk).ok().ok_or("open")?;
    Ok(Box::new(alloc, store)?)
}

// Whether it takes one put and no second, and gives the first.
fn takes_one(alloc: Global, store: &mut Store<FlatDisk>) -> bool {
    store.put(OPEN_ROW, 16, b"aaa").is_ok()
        && store.put(OPEN_ROW, 32, b"bbb") == Err(DiskFault { from: 0, to: 1 })
        && is_whole(&store.newest(alloc, OPEN_ROW, 40), 16, b"aaa")
}

#[test]
fn a_put_past_the_room_is_a_fault(rt: HostRuntime) -> Result<(), Fail> {
    let mut store = tight(rt.alloc())?;
    assert!(rt; takes_one(rt.alloc(), &mut store));
    Ok(())
}
