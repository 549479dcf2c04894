//! Cases of disks whose calls fail, and of stops. Each line of the input is a case: a piece of work,
//! the device calls of it that fail, counted from 0 (`-` for none), and the choice of a stop.
//! A line of the output says what came of it.
#![tactic(auto)]

mod case;
mod host;
mod journal;
mod pack;
mod store;

use case::{Case, read_case};
use disk_model::MemDisk;
use std::alloc::{AllocError, Global};
use std::io;
use std::io::{BufRead, BufReader};
use std::sync::Wait;
use std::thread::Threads;

/// What comes of a case; nothing where there is no such work.
fn outcome_of<R: Threads + Wait + Sync>(
    rt: &R,
    alloc: Global,
    two_areas: &MemDisk,
    case: &Case,
) -> Result<String, AllocError> {
    for work in &journal::WORKS {
        if work.name == case.work {
            return journal::outcome(rt, alloc, work, case);
        }
    }
    match case.work {
        "pack" | "pack-old" => pack::outcome(rt, alloc, case),
        _ => store::outcome(alloc, two_areas, case),
    }
}

fn main(rt: HostRuntime) -> io::Result<()> {
    let alloc = rt.alloc();
    let two_areas = store::two_areas(alloc)?;
    for line in BufReader::new(alloc, rt.reader())?.lines(alloc) {
        let line = line?;
        let case = read_case(alloc, line.as_str())?;
        let outcome = outcome_of(&rt, alloc, &two_areas, &case)?;
        println!(rt; "{line}: {outcome}")?;
    }
    Ok(())
}
