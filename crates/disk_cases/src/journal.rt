//! Work on a journal, by a host over it.

use crate::case::Case;
use crate::host::{Ran, answer};
use disk_model::{Disk, MemDisk};
use gate_journal::init;
use std::alloc::{AllocError, Global};
use std::sync::Wait;
use std::thread::Threads;

/// What is done to a journal: the lines that it has rows of, whether a byte that is neither 0 nor 1
/// stands at the gate of its second row, whether it is of version 1, and the lines that a host then
/// answers over a disk whose calls fail.
pub struct Work {
    pub name: &'static str,
    before: &'static str,
    torn: bool,
    older: bool,
    lines: &'static str,
}

const OPEN: &str = "OPEN 0 k1 0 7 80 24\n";

const OPEN_AND_LINE: &str = "OPEN 0 k1 0 7 80 24\nLINE 0 k1 1 1 =go\n";

const GATE: u64 = 76;

const VERSION: u64 = 8;

pub const WORKS: [Work; 8] = [
    Work {
        name: "open",
        before: OPEN_AND_LINE,
        torn: false,
        older: false,
        lines: "LAST 0 k1\n",
    },
    Work {
        name: "close",
        before: OPEN_AND_LINE,
        torn: true,
        older: false,
        lines: "LAST 0 k1\n",
    },
    Work {
        name: "append",
        before: OPEN,
        torn: false,
        older: false,
        lines: "LINE 0 k1 1 1 =go\n",
    },
    Work {
        name: "append-two",
        before: OPEN,
        torn: false,
        older: false,
        lines: "LINE 0 k1 1 1 =go\nOPEN 1 k2 0 7 80 24\n",
    },
    Work {
        name: "append-three",
        before: OPEN,
        torn: false,
        older: false,
        lines: "LINE 0 k1 1 1 =go\nOPEN 1 k2 0 7 80 24\nOPEN 1 k2 0 7 80 24\n",
    },
    Work {
        name: "migrate",
        before: OPEN_AND_LINE,
        torn: false,
        older: true,
        lines: "LAST 0 k1\n",
    },
    Work {
        name: "close-migrate",
        before: OPEN_AND_LINE,
        torn: true,
        older: true,
        lines: "LAST 0 k1\n",
    },
    Work {
        name: "migrate-append",
        before: OPEN,
        torn: false,
        older: true,
        lines: "LINE 0 k1 1 1 =go\n",
    },
];

/// A disk with a journal that has rows of these lines.
pub fn journal_with<R: Threads + Wait + Sync>(
    rt: &R,
    alloc: Global,
    lines: &str,
) -> Result<MemDisk, AllocError> {
    let mut disk = MemDisk::new(alloc);
    let Ok(()) = init(&mut disk) else {
        return Err(AllocError);
    };
    Ok(answer(rt, alloc, disk, lines)?.disk)
}

/// A disk that holds the journal of a piece of work, and of which no call was made.
fn journal_of<R: Threads + Wait + Sync>(
    rt: &R,
    alloc: Global,
    work: &Work,
) -> Result<MemDisk, AllocError> {
    let mut disk = journal_with(rt, alloc, work.before)?;
    if work.torn && (disk.write_at(GATE, &[7]).is_err() || disk.sync().is_err()) {
        return Err(AllocError);
    }
    if work.older && (disk.write_at(VERSION, &[0]).is_err() || disk.sync().is_err()) {
        return Err(AllocError);
    }
    disk.after_stop(alloc, 0)
}

/// How a host ended, and of each reply its first line, with the main text of a show.
fn told(alloc: Global, ran: &Ran) -> Result<String, AllocError> {
    let text = String::from_utf8_lossy(alloc, &ran.text)?;
    let mut told = format!(in alloc; "{}", ran.status)?;
    for line in text.as_str().split('\n') {
        if line.starts_with("SHOW ") || line.starts_with("NO ") {
            told.push_str(", ")?;
            told.push_str(line)?;
        } else if let Some(shown) = line.strip_prefix("T 1 0 ") {
            told.push(' ')?;
            told.push_str(shown)?;
        }
    }
    Ok(told)
}

/// How many bytes a disk holds, and what a host over a copy of it answers to these lines.
pub fn told_after<R: Threads + Wait + Sync>(
    rt: &R,
    alloc: Global,
    disk: &MemDisk,
    lines: &str,
) -> Result<String, AllocError> {
    let mut ran = answer(rt, alloc, disk.after_stop(alloc, 0)?, lines)?;
    let told = told(alloc, &ran)?;
    let size = ran.disk.size().unwrap_or(0);
    Ok(format!(in alloc; "{told}, {size} bytes")?)
}

/// The byte of a disk that tells its journal's version.
fn version_of(alloc: Global, disk: &MemDisk) -> Result<u8, AllocError> {
    let mut version = [0];
    let _ = disk.after_stop(alloc, 0)?.read_at(VERSION, &mut version);
    Ok(version[0])
}

/// What a host answers over the failing disk, what tells the version of the image that a stop then
/// leaves, and what others answer over that: to `LAST`, and to the LINE with the same text and with
/// another one.
pub fn outcome<R: Threads + Wait + Sync>(
    rt: &R,
    alloc: Global,
    work: &Work,
    case: &Case,
) -> Result<String, AllocError> {
    let mut disk = journal_of(rt, alloc, work)?;
    for call in &case.fails {
        disk.fail_at(*call)?;
    }
    let ran = answer(rt, alloc, disk, work.lines)?;
    let image = ran.disk.after_stop(alloc, case.choice)?;
    let first = told(alloc, &ran)?;
    let last = told_after(rt, alloc, &image, "LAST 0 k1\nLAST 1 k2\n")?;
    let same = told_after(rt, alloc, &image, "LINE 0 k1 1 1 =go\n")?;
    let other = told_after(rt, alloc, &image, "LINE 0 k1 1 1 =no\n")?;
    let version = version_of(alloc, &image)?;
    Ok(format!(in alloc; "{first}; version byte {version}; {last}; {same}; {other}")?)
}
