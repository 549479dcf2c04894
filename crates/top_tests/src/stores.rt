//! Hosts of which the disk of a store fails as it is opened, in a put, and as it is read.

use crate::runs::{ECHO, outside_of, run_over};
use disk_model::Disk;
use host_top::MemoryOutside;
use std::alloc::{AllocError, Global};
use std::sync::Wait;
use std::test::{Fail, *};
use std::thread::Threads;

/// A folder that was begun, of which this call of the disk of a snapshot file fails.
fn begun<R: Threads + Wait + Sync>(
    rt: &R,
    alloc: Global,
    name: &str,
    call: u64,
) -> Result<MemoryOutside, Fail> {
    let mut outside = outside_of(alloc, &ECHO)?;
    let made = run_over(rt, alloc, &mut outside, &["init", "d"], b"")?;
    let Some(mut disk) = outside.release(name) else {
        return Err("a snapshot file".into());
    };
    disk.fail_at(call)?;
    outside.hold(alloc, name, disk)?;
    if made.status != 0 {
        return Err("a folder".into());
    }
    Ok(outside)
}

#[test]
fn a_store_that_fails_in_its_opening_ends_the_run_and_is_put_back(
    rt: HostRuntime,
) -> Result<(), Fail> {
    let alloc = rt.alloc();
    // `init` takes two calls of the disk, and the opening of the store five
    for call in 2..7 {
        let mut outside = begun(&rt, alloc, "d/snap05", call)?;
        let lines = b"OPEN 0 k1 0 7 80 24\n";
        let run = run_over(&rt, alloc, &mut outside, &["pipe", "d", "a.ulx"], lines)?;
        let Some(disk) = outside.release("d/snap05") else {
            return Err("a disk that isn't put back".into());
        };
        assert!(rt; run.status == 6 && run.text.is_empty() && disk.faults() == 1);
    }
    Ok(())
}

/// The lines of a game of 20 inputs.
fn game(alloc: Global) -> Result<Vec<u8>, AllocError> {
    let mut lines = b"OPEN 0 k1 0 7 80 24\n".to_vec(alloc)?;
    for n in 1..21u32 {
        let line = format!(in alloc; "LINE 0 k1 {n} 1 =a\n")?;
        lines.extend_from_slice(line.as_bytes())?;
    }
    Ok(lines)
}

/// What a host writes to a game where this call fails, and what the next one shows of it.
fn shown<R: Threads + Wait + Sync>(rt: &R, alloc: Global, call: u64) -> Result<Vec<u8>, Fail> {
    let mut outside = begun(rt, alloc, "d/snap00", call)?;
    let words = ["pipe", "d", "a.ulx"];
    let mut text = run_over(rt, alloc, &mut outside, &words, &game(alloc)?)?.text;
    let next = run_over(rt, alloc, &mut outside, &words, b"LAST 0 k1\n")?.text;
    text.extend_from_slice(&next)?;
    Ok(text)
}

#[test]
fn a_store_that_fails_in_a_put_or_as_it_is_read_changes_no_reply(
    rt: HostRuntime,
) -> Result<(), Fail> {
    let alloc = rt.alloc();
    let wanted = shown(&rt, alloc, 99)?;
    // behind the opening a put takes six calls, the opening by the next host five, and its reading
    // of the newest area at most five
    for call in [7, 8, 9, 10, 11, 12, 18, 19, 20, 21, 22] {
        assert!(rt; shown(&rt, alloc, call)? == wanted);
    }
    Ok(())
}
