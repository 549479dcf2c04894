//! Work on a snapshot file.

use crate::case::Case;
use disk_model::MemDisk;
use snap_store::{Area, DiskFault, MAX_SNAPSHOT, NewestFault, Store, make};
use std::alloc::{AllocError, Global};

/// The place of the OPEN row that all areas are of.
const PLACE: u64 = 16;

/// A new snapshot file.
fn new_store(alloc: Global) -> Result<MemDisk, AllocError> {
    let mut disk = MemDisk::new(alloc);
    let Ok(()) = make(&mut disk) else {
        return Err(AllocError);
    };
    disk.after_stop(alloc, 0)
}

/// The same with two areas, on a disk of which no call was made.
pub fn two_areas(alloc: Global) -> Result<MemDisk, AllocError> {
    let Ok(mut store) = Store::open(new_store(alloc)?) else {
        return Err(AllocError);
    };
    if store.put(PLACE, 16, b"aaa").is_err() || store.put(PLACE, 32, b"bbb").is_err() {
        return Err(AllocError);
    }
    store.into_disk().after_stop(alloc, 0)
}

fn told_fault(alloc: Global, answer: &Result<(), DiskFault>) -> Result<String, AllocError> {
    match answer {
        Ok(()) => Ok(String::from_str(alloc, "ok")?),
        Err(fault) => Ok(format!(in alloc; "fault {} {}", fault.from, fault.to)?),
    }
}

fn told_area(
    alloc: Global,
    area: &Result<Option<Area>, NewestFault>,
) -> Result<String, AllocError> {
    match area {
        Ok(Some(area)) => {
            let bytes = String::from_utf8_lossy(alloc, area.bytes.as_slice())?;
            Ok(format!(in alloc; "{} {}", area.count, bytes.as_str())?)
        }
        Ok(None) => Ok(String::from_str(alloc, "none")?),
        Err(_) => Ok(String::from_str(alloc, "fault")?),
    }
}

/// Whether the file of an image has its header, and its newest areas of at most 47 and 48 inputs.
fn told_image(alloc: Global, image: MemDisk) -> Result<String, AllocError> {
    let Ok(mut store) = Store::open(image) else {
        return Ok(String::from_str(alloc, "fault")?);
    };
    if !store.is_made() {
        return Ok(String::from_str(alloc, "no header")?);
    }
    let old = told_area(alloc, &store.newest(alloc, PLACE, 47))?;
    let new = told_area(alloc, &store.newest(alloc, PLACE, 48))?;
    Ok(format!(in alloc; "{old}, {new}")?)
}

/// A file is made on an empty disk.
fn made(alloc: Global, case: &Case) -> Result<String, AllocError> {
    let mut disk = MemDisk::new(alloc);
    for call in &case.fails {
        disk.fail_at(*call)?;
    }
    let answer = told_fault(alloc, &make(&mut disk))?;
    let image = told_image(alloc, disk.after_stop(alloc, case.choice)?)?;
    Ok(format!(in alloc; "{answer}; {image}")?)
}

/// Areas are put into a file, one after the other.
fn put(
    alloc: Global,
    case: &Case,
    disk: MemDisk,
    areas: &[(u32, &[u8])],
) -> Result<String, AllocError> {
    let mut disk = disk;
    for call in &case.fails {
        disk.fail_at(*call)?;
    }
    let mut store = match Store::open(disk) {
        Ok(store) => store,
        Err((fault, _)) => return told_fault(alloc, &Err(fault)),
    };
    let mut told = String::new(alloc);
    for (count, bytes) in areas {
        if bytes.len() > MAX_SNAPSHOT as usize {
            continue;
        }
        let answer = store.put(PLACE, *count, bytes);
        told.push_str(told_fault(alloc, &answer)?.as_str())?;
        told.push_str("; ")?;
    }
    let image = store.into_disk().after_stop(alloc, case.choice)?;
    told.push_str(told_image(alloc, image)?.as_str())?;
    Ok(told)
}

/// What comes of work on a snapshot file; nothing where there is no such work.
pub fn outcome(alloc: Global, two_areas: &MemDisk, case: &Case) -> Result<String, AllocError> {
    match case.work {
        "make" => made(alloc, case),
        "put" => put(
            alloc,
            case,
            two_areas.after_stop(alloc, 0)?,
            &[(48, b"ccc")],
        ),
        "put-two" => put(
            alloc,
            case,
            new_store(alloc)?,
            &[(16, b"aaa"), (48, b"ccc")],
        ),
        _ => Ok(String::new(alloc)),
    }
}
