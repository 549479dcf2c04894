//! The program over journals in memory.

use disk_model::MemDisk;
use host_top::{MemoryOutside, top};
use line_talk::{MemorySink, MemorySource};
use std::alloc::{AllocError, Global};
use std::collections::BTreeMap;
use std::sync::Wait;
use std::thread::Threads;
use story_make::echo_story;

/// The journal of the folder `d`.
pub const JOURNAL: &str = "d/journal";

const STORY: &str = "echo.ulx";

/// How a host ended, what it wrote, and the journal's disk.
#[derive(Drop)]
pub struct Ran {
    pub status: u8,
    pub text: Vec<u8>,
    pub disk: MemDisk,
}

/// An outside that has the Echo story.
pub fn outside_of(alloc: Global) -> Result<MemoryOutside, AllocError> {
    let mut files = BTreeMap::new(alloc);
    files.insert(String::from_str(alloc, STORY)?, echo_story(alloc)?)?;
    Ok(MemoryOutside::new(
        alloc,
        files,
        Vec::new(alloc),
        Vec::new(alloc),
        Vec::new(alloc),
    ))
}

/// How the program ends with these words and this input, and what it writes.
pub fn run<R: Threads + Wait + Sync>(
    rt: &R,
    alloc: Global,
    words: &[&str],
    lines: &str,
    outside: &mut MemoryOutside,
) -> Result<(u8, Vec<u8>), AllocError> {
    let mut given = Vec::new(alloc);
    for word in words {
        given.push(String::from_str(alloc, word)?)?;
    }
    let mut input = MemorySource::new(lines.as_bytes().to_vec(alloc)?, 4096, Vec::new(alloc));
    let mut output = MemorySink::new(alloc, 4096, Vec::new(alloc));
    let status = top(rt, alloc, &given, outside, &mut input, &mut output);
    Ok((status, output.bytes().to_vec(alloc)?))
}

/// Answers these lines from the journal on a disk, over the Echo story.
pub fn answer<R: Threads + Wait + Sync>(
    rt: &R,
    alloc: Global,
    disk: MemDisk,
    lines: &str,
) -> Result<Ran, AllocError> {
    let mut outside = outside_of(alloc)?;
    outside.hold(alloc, JOURNAL, disk)?;
    let (status, text) = run(rt, alloc, &["pipe", "d", STORY], lines, &mut outside)?;
    let disk = outside.release(JOURNAL).ok_or(AllocError)?;
    Ok(Ran { status, text, disk })
}
