//! The command `serve`, which answers the numbered requests of many connections.
ghost use Rattle.std.specs.Prelude.{◌≡◌, ◌⊎◌, ◌<◌, ◌≤◌, ◌∷◌, [], ℕ, IfErr, IfOk, length};
ghost use Rattle.gate_journal.specs.Command.{IsBudget};
ghost use Rattle.host_serve.specs.Holders.{holders, seens};
ghost use Rattle.host_serve.specs.Hosts.{AreOf, IsSound};
ghost use Rattle.host_serve.specs.Joining.{ArePartsOf, HasNoRoot};
ghost use Rattle.host_serve.specs.Splitting.{AreRoots};
ghost use Rattle.line_talk.specs.Causes.{Rose};
ghost use Rattle.line_talk.specs.Streams.{SourceState};
ghost use Rattle.host_top.specs.DoorServed.{AreAllShut, AtDoor, CrewRejoins, HostServes};
ghost use Rattle.host_top.specs.DoorServed.{WorkersServe};
ghost use Rattle.host_top.specs.Calls.{DisksStand};
ghost use Rattle.host_top.specs.Files.{KeepsDisks, KeepsFiles};
ghost use Rattle.host_top.specs.Folder.{IsSameBack, UsesFolder};
ghost use Rattle.host_top.specs.LinksServed.{DoorsBy, ServesOver};
ghost use Rattle.host_top.specs.Rejoining.{AreAllHeld, HaveSeen, IsHeldByOne, JoinsAll};
ghost use Rattle.host_top.specs.Rejoining.{SeeNoMore, SplitsFrom};
ghost use Rattle.host_top.specs.Speech.{door_call};
ghost use Rattle.turn_cell.specs.History.{Each};

use crate::folder::{Back, Disks};
use crate::lending::{put_folder_back, take_folder};
use crate::opening::open_host;
use crate::outside::Outside;
use crate::status::Status;
use command_words::Serving;
use disk_model::{Disk, Failed};
use host_serve::{Host, NoPause, Passes};
use line_talk::Sink;
use std::alloc::{AllocError, Global};
use std::sync::Wait;
use std::thread::Threads;
use story_run::Story;

/// Passes for each of so many workers, split off those of a host that was just opened, which have
/// seen as much. Where memory runs out, those that were split off by then are joined again.
fn split_among<'i, D: Disk + Drop>(
    alloc: Global,
    host: &Host<'i, D>,
    roots: &mut Passes<'i, D>,
    workers: u8,
) -> Result<Vec<Passes<'i, D>>, AllocError>
    requires passes { AreOf host.now roots.old }
    requires roots { AreRoots 0 (holders roots.old.desks.items) }
    requires held { AreAllHeld roots.old (roots.old ∷ []) }
    ensures ok { IfOk result (λ passes. (length passes.items ≡ workers)
        × Each (AreOf host.now) passes.items) }
    ensures split { IfOk result (λ passes. SplitsFrom roots.old roots.new
        × AreAllHeld roots.new (roots.new ∷ passes.items)) }
    ensures err { IfErr result (λ _. AreAllHeld roots.new (roots.new ∷ [])
        × SeeNoMore roots.old roots.new) }
    ensures begin { IfOk result
        (λ passes. Each (HaveSeen (seens roots.old.desks.items)) passes.items) }
    ensures no_root { IfOk result (λ passes. Each HasNoRoot passes.items) }
    ensures kept { AreOf host.now roots.new }
{
    let mut passes = Vec::with_capacity(alloc, usize::from(workers))?;
    for _ in 0..workers {
        let more = match roots.split(alloc, host) {
            Ok(more) => more,
            Err(error) => {
                join_all(host, roots, passes);
                return Err(error);
            }
        };
        passes.push_reserved(more);
    }
    Ok(passes)
}

/// Joins the passes of workers into those that they were split off.
fn join_all<'i, D: Disk + Drop>(
    host: &Host<'i, D>,
    roots: &mut Passes<'i, D>,
    mut workers: Vec<Passes<'i, D>>,
)
    requires roots { AreOf host.now roots.old }
    requires passes { Each (AreOf host.now) workers.items }
    requires no_root { Each HasNoRoot workers.items }
    ensures joined { JoinsAll roots.old workers.entry.items roots.new }
    ensures held { AreAllHeld roots.old (roots.old ∷ workers.entry.items)
        → AreAllHeld roots.new (roots.new ∷ []) }
    ensures kept { AreOf host.now roots.new }
{
    while let Some(passes) = workers.pop() {
        roots.join(host, passes);
    }
}

/// Serves the links of a door that the outside gives, until it is shut.
fn serve_door<'i, R: Threads + Wait + Sync, O: Outside>(
    rt: &R,
    alloc: Global,
    host: &Host<'i, O::Disk>,
    workers: &mut [Passes<'i, O::Disk>],
    serving: Serving,
    outside: &mut O,
) -> Status
    requires workers { (0 < length workers.old) × (length workers.old ≤ 16) }
    requires passes { Each (AreOf host.now) workers.old }
    ensures value { result ≡ Status.Done ⊎ (result ≡ Status.DoorFault) }
    ensures served { AtDoor result
        (WorkersServe O.Door.Door O.Door.Conn.source O.Door.Conn.sink O.Door.Conn.lent
        (IsSound O.Disk.Disk) host.now workers.old workers.new)
        (AreAllShut O.Door.Door O.Door.Conn.source O.Door.Conn.sink O.Door.Conn.lent)
        (workers.new ≡ workers.old) }
    ensures kept { Each (AreOf host.now) workers.new }
    ensures no_root { Each HasNoRoot workers.old → Each HasNoRoot workers.new }
    ensures held { (s n : ℕ) → IsHeldByOne s n workers.old → IsHeldByOne s n workers.new }
    ensures doors { DoorsBy (door_call serving) (O.outside outside.old) (O.outside outside.new)
        result }
    ensures files { KeepsFiles (O.outside outside.old) (O.outside outside.new) }
    ensures disks { KeepsDisks (O.outside outside.old) (O.outside outside.new) }
{
    let door = match outside.door(serving.port, serving.links) {
        Ok(door) => door,
        Err(Failed) => return Status::DoorFault,
    };
    let how = host.work(rt, alloc, &door, &NoPause, workers);
    let status = Status::of_worked(&how);
    outside.closed(how);
    status
}

/// Serves links by workers, to each of which passes are split off those of a host that was just
/// opened, and joined again at every status. What the workers had seen last is then part of what
/// these have, which hold all numbers again.
fn serve_links<'i, R: Threads + Wait + Sync, O: Outside>(
    rt: &R,
    alloc: Global,
    host: &Host<'i, O::Disk>,
    roots: &mut Passes<'i, O::Disk>,
    serving: Serving,
    outside: &mut O,
) -> Status
    requires passes { AreOf host.now roots.old }
    requires roots { AreRoots 0 (holders roots.old.desks.items) }
    requires held { AreAllHeld roots.old (roots.old ∷ []) }
    requires workers { (0 < serving.workers) × (serving.workers ≤ 16) }
    ensures value { result ≡ Status.Done ⊎ (result ≡ Status.DoorFault)
        ⊎ (result ≡ Status.NoMemory) }
    ensures whole { AreAllHeld roots.new (roots.new ∷ []) }
    ensures served { AtDoor result
        (CrewRejoins O.Door.Door O.Door.Conn.source O.Door.Conn.sink O.Door.Conn.lent
        (IsSound O.Disk.Disk) host.now serving.workers roots.old roots.new)
        (λ crew. AreAllShut O.Door.Door O.Door.Conn.source O.Door.Conn.sink O.Door.Conn.lent
        crew.0.serve) (SeeNoMore roots.old roots.new) }
    ensures kept { AreOf host.now roots.new }
    ensures doors { DoorsBy (door_call serving) (O.outside outside.old) (O.outside outside.new)
        result }
    ensures files { KeepsFiles (O.outside outside.old) (O.outside outside.new) }
    ensures disks { KeepsDisks (O.outside outside.old) (O.outside outside.new) }
{
    match split_among(alloc, host, roots, serving.workers) {
        Ok(mut workers) => {
            let status = serve_door(rt, alloc, host, &mut workers, serving, outside);
            join_all(host, roots, workers);
            status
        }
        Err(AllocError) => Status::NoMemory,
    }
}

/// Serves links by the sessions of the folder whose disks these are, and tells what comes back of
/// these. No input is read.
fn serve_over<'i, R, D, O, K>(
    rt: &R,
    alloc: Global,
    stories: &'i [Story<'i>],
    budget: u64,
    disks: Disks<D>,
    serving: Serving,
    outside: &mut O,
    output: &mut K,
) -> (Status, Back<D>)
where
    R: Threads + Wait + Sync,
    D: Disk + Drop + Send + Sync,
    O: Outside<Disk = D>,
    K: Sink,
    requires budget { IsBudget budget }
    requires many { length disks.snaps.items ≡ 64 }
    requires workers { (0 < serving.workers) × (serving.workers ≤ 16) }
    ensures value { (input : SourceState) → ServesOver D.Disk
        (HostServes O.Door.Door O.Door.Conn.source O.Door.Conn.sink O.Door.Conn.lent D.Disk)
        stories.now budget serving.workers disks.journal disks.snaps.items result.1 input input
        (K.sink output.old) (K.sink output.new) result.0 }
    ensures kept { IsSameBack D.Disk disks.journal disks.snaps.items result.1 }
    ensures doors { DoorsBy (door_call serving) (O.outside outside.old) (O.outside outside.new)
        result.0 }
    ensures files { KeepsFiles (O.outside outside.old) (O.outside outside.new) }
    ensures disks { KeepsDisks (O.outside outside.old) (O.outside outside.new) }
    ensures read_fault { ¬ (result.0 ≡ Status.ReadFault) }
    ensures write_fault { result.0 ≡ Status.WriteFault
        → Rose (K.sink output.old).faults (K.sink output.new).faults }
{
    let (host, mut roots) = match open_host(alloc, stories, budget, disks, output) {
        Ok(opened) => opened,
        Err(refusal) => return refusal,
    };
    let status = serve_links(rt, alloc, &host, &mut roots, serving, outside);
    let (journal, snaps) = host.end(rt, roots);
    (status, Back::All(journal, snaps))
}

/// Serves links by the sessions of a folder, until so many were taken. No input is read. Where a
/// link fails it ends alone.
pub fn serve<'i, R: Threads + Wait + Sync, O: Outside, K: Sink>(
    rt: &R,
    alloc: Global,
    stories: &'i [Story<'i>],
    budget: u64,
    folder: &str,
    serving: Serving,
    outside: &mut O,
    output: &mut K,
) -> Status
    requires budget { IsBudget budget }
    requires workers { (0 < serving.workers) × (serving.workers ≤ 16) }
    ensures value { (input : SourceState) → UsesFolder O.Disk.Disk folder.now
        (λ given givens back. ServesOver O.Disk.Disk
        (HostServes O.Door.Door O.Door.Conn.source O.Door.Conn.sink O.Door.Conn.lent O.Disk.Disk)
        stories.now budget serving.workers given givens back input input
        (K.sink output.old) (K.sink output.new) result)
        (O.outside outside.old) (O.outside outside.new) input input
        (K.sink output.old) (K.sink output.new) result }
    ensures doors { DoorsBy (door_call serving) (O.outside outside.old) (O.outside outside.new)
        result }
    ensures read_fault { ¬ (result ≡ Status.ReadFault) }
    ensures write_fault { result ≡ Status.WriteFault
        → Rose (K.sink output.old).faults (K.sink output.new).faults }
    ensures stood { DisksStand (O.failing_loans outside.old) (O.outside outside.old)
        (O.outside outside.new) → ¬ (result ≡ Status.DiskFault) }
    ensures files { KeepsFiles (O.outside outside.old) (O.outside outside.new) }
{
    let (names, disks) = match take_folder(alloc, folder, outside) {
        Ok(taken) => taken,
        Err(why) => return Status::of_fetch(why),
    };
    let (status, back) = serve_over(rt, alloc, stories, budget, disks, serving, outside, output);
    put_folder_back(&names, back, outside);
    status
}
