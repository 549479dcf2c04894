//! Hosts over a journal in memory, and two workers of theirs.
ghost use Rattle.std.specs.Prelude.{IfOk};
ghost use Rattle.host_serve.specs.Holders.{holders};
ghost use Rattle.host_serve.specs.Hosts.{AreOf};
ghost use Rattle.host_serve.specs.Splitting.{AreRoots};

use crate::door::Lines;
use disk_model::MemDisk;
use gate_journal::init;
use host_serve::{Host, NoPause, Passes, Pause, Worked};
use line_words::write_reply;
use std::alloc::Global;
use std::sync::Wait;
use std::test::Fail;
use std::thread::Threads;
use story_run::Story;

/// A turn's ticks.
const BUDGET: u64 = 50_000_000;

/// A journal without rows.
fn new_journal(alloc: Global) -> Result<MemDisk, Fail> {
    let mut disk = MemDisk::new(alloc);
    let Ok(()) = init(&mut disk) else {
        return Err("a disk".into());
    };
    Ok(disk)
}

/// The host of this journal, with its first passes. It keeps no snapshots, since their disks are
/// empty.
fn opened<'i>(
    alloc: Global,
    stories: &'i [Story<'i>],
    journal: MemDisk,
) -> Result<(Host<'i, MemDisk>, Passes<'i, MemDisk>), Fail>
    ensures passes { IfOk result (λ pair. AreOf pair.0 pair.1) }
    ensures roots { IfOk result (λ pair. AreRoots 0 (holders pair.1.desks.items)) }
{
    let mut snaps = Vec::new(alloc);
    for _ in 0..64 {
        snaps.push(MemDisk::new(alloc))?;
    }
    if snaps.len() != 64 {
        return Err("64 disks".into());
    }
    match Host::open(alloc, stories, journal, snaps, BUDGET) {
        Ok(opened) => Ok(opened),
        Err(_) => Err("a host".into()),
    }
}

/// A host of a journal without rows, with the passes of two workers.
pub fn opened_for_two<'i>(
    alloc: Global,
    stories: &'i [Story<'i>],
) -> Result<(Host<'i, MemDisk>, Passes<'i, MemDisk>, Passes<'i, MemDisk>), Fail>
    ensures first { IfOk result (λ r. AreOf r.0 r.1) }
    ensures second { IfOk result (λ r. AreOf r.0 r.2) }
{
    let (host, mut one) = opened(alloc, stories, new_journal(alloc)?)?;
    let two = one.split(alloc, &host)?;
    Ok((host, one, two))
}

/// Whether a line is answered this.
pub fn is_answered<'i, R: Wait>(
    rt: &R,
    alloc: Global,
    host: &Host<'i, MemDisk>,
    passes: &mut Passes<'i, MemDisk>,
    line: &[u8],
    text: &[u8],
) -> bool
    requires passes { AreOf host.now passes.old }
    ensures kept { AreOf host.now passes.new }
{
    let reply = host.request(rt, alloc, passes, &NoPause, line);
    match write_reply(alloc, &reply) {
        Ok(written) => written.as_slice() == text,
        Err(_) => false,
    }
}

/// How the work of two ends.
pub fn worked<'a, 'i, R: Threads + Wait + Sync, P: Pause + Sync>(
    rt: &R,
    alloc: Global,
    host: &Host<'i, MemDisk>,
    one: Passes<'i, MemDisk>,
    two: Passes<'i, MemDisk>,
    door: &Lines<'a>,
    pause: &P,
) -> Worked<Lines<'a>>
    requires first { AreOf host.now one }
    requires second { AreOf host.now two }
{
    let mut workers = [one, two];
    host.work(rt, alloc, door, pause, &mut workers)
}
