//! What no clause says: which images are drawn, and that a call doesn't give up.

use disk_model::{Disk, Failed, FlatDisk, MemDisk, write_through};
use std::alloc::{AllocError, Global};
use std::test::Fail;

// "hello" at place 3 of an empty disk, and what stands around it.
fn has_hello<D: Disk>(disk: &mut D) -> bool {
    let mut around = [9; 7];
    write_through(disk, 3, b"hello").is_ok()
        && disk.size() == Ok(8)
        && disk.read_at(2, &mut around).is_ok()
        && around == *b"\0hello\0"
        && disk.faults() == 0
}

// Whether `abcd` is written through, and `XYZW` over the half of it is written.
fn is_half_written(disk: &mut MemDisk) -> bool {
    write_through(disk, 0, b"abcd") == Ok(()) && disk.write_at(2, b"XYZW") == Ok(())
}

/// What the images had that were seen.
#[derive(Clone, Copy, PartialEq)]
struct Seen {
    torn: bool,
    lost: bool,
    kept: bool,
    grown: bool,
}

// What was seen with one image more.
fn seen_with(seen: Seen, size: u64, image: &[u8; 6]) -> Seen {
    let middle = [image[2], image[3]];
    Seen {
        torn: seen.torn || middle == *b"Xd" || middle == *b"cY",
        lost: seen.lost || size == 4 && middle == *b"cd",
        kept: seen.kept || size == 6 && *image == *b"abXYZW",
        grown: seen.grown || size == 6 && !image.ends_with(b"ZW"),
    }
}

// What was seen with a disk's image more, if it begins with `ab` and has one of two sizes.
fn seen_in(disk: &mut MemDisk, seen: Seen) -> Option<Seen> {
    let size = disk.size().ok()?;
    let mut image = [0; 6];
    disk.read_at(0, &mut image).ok()?;
    if image.starts_with(b"ab") && (size == 4 || size == 6) {
        Some(seen_with(seen, size, &image))
    } else {
        None
    }
}

// The same of the disk that a stop leaves.
fn seen_left(
    alloc: Global,
    disk: &MemDisk,
    choice: u64,
    seen: Seen,
) -> Result<Option<Seen>, AllocError> {
    let mut left = disk.after_stop(alloc, choice)?;
    Ok(seen_in(&mut left, seen))
}

// What is seen of all images that stops leave, if each is such a one.
fn seen_of(alloc: Global, disk: &MemDisk) -> Result<Option<Seen>, AllocError> {
    let mut seen = Seen {
        torn: false,
        lost: false,
        kept: false,
        grown: false,
    };
    for choice in 0..32 {
        match seen_left(alloc, disk, choice, seen)? {
            Some(more) => seen = more,
            None => return Ok(None),
        }
    }
    Ok(Some(seen))
}

const ALL: Seen = Seen {
    torn: true,
    lost: true,
    kept: true,
    grown: true,
};

#[test]
fn a_stop_leaves_a_write_torn_lost_kept_or_grown(rt: HostRuntime) -> Result<(), Fail> {
    let mut disk = MemDisk::new(rt.alloc());
    assert!(rt; is_half_written(&mut disk) && seen_of(rt.alloc(), &disk)? == Some(ALL));
    Ok(())
}

// Whether a write past 16 bytes fails, and one up to there doesn't.
fn fails_past_room(disk: &mut FlatDisk) -> bool {
    has_hello(disk)
        && disk.write_at(12, b"hello") == Err(Failed)
        && disk.size() == Ok(8)
        && disk.faults() == 1
        && disk.write_at(11, b"hello") == Ok(())
        && disk.size() == Ok(16)
        && disk.faults() == 1
}

#[test]
fn a_flat_disk_fails_past_its_room_alone(rt: HostRuntime) -> Result<(), Fail> {
    assert!(rt; has_hello(&mut MemDisk::new(rt.alloc())));
    let mut disk = FlatDisk::new(rt.alloc(), 16)?;
    assert!(rt; fails_past_room(&mut disk));
    Ok(())
}
