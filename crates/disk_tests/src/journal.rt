//! A journal that stops and is opened again.

use disk_model::MemDisk;
use gate_journal::{Journal, init, stop_and_open};
use std::alloc::Global;
use std::test::*;

// How many rows a new journal has behind a stop.
fn rows_left(alloc: Global, choice: u64) -> Option<u64> {
    let mut disk = MemDisk::new(alloc);
    init(&mut disk).ok()?;
    let journal = Journal::open(alloc, disk).ok()?;
    let left = stop_and_open(alloc, journal, choice).ok()?;
    Some(left.row_count())
}

#[test]
fn a_journal_that_stops_is_opened_again(rt: HostRuntime) {
    assert!(rt; rows_left(rt.alloc(), 0) == Some(0));
    assert!(rt; rows_left(rt.alloc(), 31) == Some(0));
}
