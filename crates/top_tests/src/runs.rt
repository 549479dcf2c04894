//! Runs of the whole program over files, input and output in memory.

use disk_model::MemDisk;
use gate_journal::init;
use host_top::{MemoryOutside, top};
use line_talk::{MemorySink, MemorySource};
use std::alloc::{AllocError, Global};
use std::collections::BTreeMap;
use std::sync::Wait;
use std::thread::Threads;

/// A story file: the nine words of the header, and what stands behind them; the rest is zeros. The
/// fourth word is its size in bytes.
#[derive(Clone, Copy)]
pub struct File {
    pub header: [u32; 9],
    pub code: &'static [u8],
}

/// Prints `Hi` and quits.
const HI: File = File {
    header: [
        0x476C_756C,
        0x0003_0103,
        0x100,
        0x100,
        0x100,
        0x100,
        0x24,
        0,
        0x957C_E43E,
    ],
    code: b"\xC1\x00\x00\x40\x80\x40\x81\x03\x40\x80\x40\x80\x40\x80\x81\x30\x11\x08\x23\x05\x81\
        \x30\x11\x00\x2F\x01\x81\x49\x01\x02\x70\x01\x48\x70\x01\x69\x81\x20",
};

/// Prints `>`, asks for a line, prints it and begins again.
pub const ECHO: File = File {
    header: [
        0x476C_756C,
        0x0003_0103,
        0x100,
        0x100,
        0x200,
        0x100,
        0x24,
        0,
        0x166C_941C,
    ],
    code: b"\xC1\x00\x00\x40\x80\x40\x81\x03\x40\x80\x40\x80\x40\x80\x81\x30\x11\x08\x23\x05\x81\
        \x30\x11\x00\x2F\x01\x81\x49\x01\x02\x70\x01\x3E\x40\x80\x40\x81\x14\x40\x82\x01\x00\x40\
        \x81\x01\x81\x30\x12\x00\x00\xD0\x04\x40\x82\x01\x20\x81\x30\x12\x00\x00\xC0\x01\x40\x86\
        \x01\x28\x40\x82\x01\x00\x81\x30\x12\x00\x00\x84\x02\x70\x01\x0A\x20\x01\xCC",
};

const HI_SHOW: &[u8] = b"W 1 3 0 0 80 24\nT 1 0 =Hi\nE quit\n.\n";

pub const PROMPT: &[u8] = b"W 1 3 0 0 80 24\nT 1 0 =>\nI 1 line 20 =\n.\n";

pub const GO: &[u8] = b"W 1 3 0 0 80 24\nT 1 8 =go%0A\nT 1 0 =go%0A>\nI 1 line 20 =\n.\n";

/// A run: the words before the name of the file, the input, the most bytes of a read or write, the
/// loads, calls for a disk and for a door, reads and writes that fail, and what is wanted.
#[derive(Clone, Copy)]
pub struct Run {
    pub file: File,
    pub command: &'static [&'static str],
    pub input: &'static [u8],
    pub most: usize,
    pub loads: &'static [u64],
    pub loans: &'static [u64],
    pub doors: &'static [u64],
    pub reads: &'static [u64],
    pub writes: &'static [u64],
    pub status: u8,
    pub text: &'static [&'static [u8]],
}

pub const PLAIN: Run = Run {
    file: HI,
    command: &["run"],
    input: b"",
    most: 4096,
    loads: &[],
    loans: &[],
    doors: &[],
    reads: &[],
    writes: &[],
    status: 0,
    text: &[HI_SHOW],
};

fn bytes_of(alloc: Global, file: &File) -> Result<Vec<u8>, AllocError> {
    let mut bytes = Vec::new(alloc);
    for word in &file.header {
        bytes.extend_from_slice(&word.to_be_bytes())?;
    }
    bytes.extend_from_slice(file.code)?;
    bytes.resize(file.header[3] as usize, 0)?;
    Ok(bytes)
}

/// A story file under the name `a.ulx`.
fn files_of(alloc: Global, file: &File) -> Result<BTreeMap<String, Vec<u8>>, AllocError> {
    let mut files = BTreeMap::new(alloc);
    files.insert(String::from_str(alloc, "a.ulx")?, bytes_of(alloc, file)?)?;
    Ok(files)
}

/// An outside with a story file under that name and no disk, of which no call is to fail.
pub fn outside_of(alloc: Global, file: &File) -> Result<MemoryOutside, AllocError> {
    Ok(MemoryOutside::new(
        alloc,
        files_of(alloc, file)?,
        Vec::new(alloc),
        Vec::new(alloc),
        Vec::new(alloc),
    ))
}

/// How a run ended, and what it wrote.
#[derive(Drop)]
pub struct Ended {
    pub status: u8,
    pub text: Vec<u8>,
}

/// Runs the program with these words over an outside, until the input is at its end.
pub fn run_over<R: Threads + Wait + Sync>(
    rt: &R,
    alloc: Global,
    outside: &mut MemoryOutside,
    words: &[&str],
    input: &[u8],
) -> Result<Ended, AllocError> {
    let words = words_of(alloc, words)?;
    let mut input = MemorySource::new(input.to_vec(alloc)?, 4096, Vec::new(alloc));
    let mut output = MemorySink::new(alloc, 4096, Vec::new(alloc));
    let status = top(rt, alloc, &words, outside, &mut input, &mut output);
    Ok(Ended {
        status,
        text: output.bytes().to_vec(alloc)?,
    })
}

fn words_of(alloc: Global, words: &[&str]) -> Result<Vec<String>, AllocError> {
    let mut given = Vec::new(alloc);
    for word in words {
        given.push(String::from_str(alloc, word)?)?;
    }
    Ok(given)
}

/// A disk on which a journal was begun.
pub fn new_journal(alloc: Global) -> Option<MemDisk> {
    let mut disk = MemDisk::new(alloc);
    match init(&mut disk) {
        Ok(()) => Some(disk),
        Err(_) => None,
    }
}

fn ends_as_wanted<R: Threads + Wait + Sync>(
    rt: &R,
    alloc: Global,
    run: &Run,
) -> Result<bool, AllocError> {
    let mut text = Vec::new(alloc);
    for part in run.text {
        text.extend_from_slice(part)?;
    }
    let mut words = words_of(alloc, run.command)?;
    words.push(String::from_str(alloc, "a.ulx")?)?;
    let mut outside = MemoryOutside::new(
        alloc,
        files_of(alloc, &run.file)?,
        run.loads.to_vec(alloc)?,
        run.loans.to_vec(alloc)?,
        run.doors.to_vec(alloc)?,
    );
    let Some(disk) = new_journal(alloc) else {
        return Ok(false);
    };
    outside.hold(alloc, "d/journal", disk)?;
    let mut input = MemorySource::new(run.input.to_vec(alloc)?, run.most, run.reads.to_vec(alloc)?);
    let mut output = MemorySink::new(alloc, run.most, run.writes.to_vec(alloc)?);
    let status = top(rt, alloc, &words, &mut outside, &mut input, &mut output);
    Ok(status == run.status && output.bytes() == text.as_slice())
}

/// The first run that doesn't end as wanted.
pub fn first_unwanted<R: Threads + Wait + Sync>(
    rt: &R,
    alloc: Global,
    runs: &[Run],
) -> Result<Option<usize>, AllocError> {
    for (number, run) in runs.iter().enumerate() {
        if !ends_as_wanted(rt, alloc, run)? {
            return Ok(Some(number));
        }
    }
    Ok(None)
}
