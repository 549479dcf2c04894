//! Work on two journals: one is packed into the other.

use crate::case::Case;
use crate::host::{JOURNAL, outside_of, run};
use crate::journal::{journal_with, told_after};
use disk_model::MemDisk;
use std::alloc::{AllocError, Global};
use std::sync::Wait;
use std::thread::Threads;

/// The journal of the folder `e`.
const NEW: &str = "e/journal";

/// What the old journal has rows of: a session in use, and one that was closed.
const LINES: &str = "\
OPEN 0 k1 0 7 80 24
LINE 0 k1 1 1 =go
OPEN 1 k2 0 7 80 24
CLOSE 1 k2 1
";

/// What is asked of a host over a journal then.
const LAST: &str = "LAST 0 k1\nLAST 1 k2\n";

/// How a packing ends where calls of the new journal's disk fail, or of the old one's, and what it
/// writes; and what hosts answer over the images that the same stop leaves of the new one and of the
/// old one.
pub fn outcome<R: Threads + Wait + Sync>(
    rt: &R,
    alloc: Global,
    case: &Case,
) -> Result<String, AllocError> {
    let mut old = journal_with(rt, alloc, LINES)?.after_stop(alloc, 0)?;
    let mut new = MemDisk::new(alloc);
    for call in &case.fails {
        if case.work == "pack-old" {
            old.fail_at(*call)?;
        } else {
            new.fail_at(*call)?;
        }
    }
    let mut outside = outside_of(alloc)?;
    outside.hold(alloc, JOURNAL, old)?;
    outside.hold(alloc, NEW, new)?;
    let (status, text) = run(rt, alloc, &["pack", "d", "e"], "", &mut outside)?;
    let old = outside.release(JOURNAL).ok_or(AllocError)?;
    let new = outside.release(NEW).ok_or(AllocError)?;
    let text = String::from_utf8_lossy(alloc, &text)?;
    let line = text.as_str().trim_end();
    let packed = told_after(rt, alloc, &new.after_stop(alloc, case.choice)?, LAST)?;
    let kept = told_after(rt, alloc, &old.after_stop(alloc, case.choice)?, LAST)?;
    Ok(format!(in alloc; "{status} {line}; {packed}; {kept}")?)
}
