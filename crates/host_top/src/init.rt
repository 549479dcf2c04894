//! The command `init`, which makes the stores of a folder and begins its journal.
ghost use Rattle.std.specs.Prelude.{◌≡◌, ◌≤◌, ◌<◌, ◌∷◌, [], ℕ, List, true, false, length, IsTrue};
ghost use Rattle.std.specs.Prelude.{IfOk, OnOk, OnErr, IsErrOf};
ghost use Rattle.disk_model.specs.Disk.{CountsErrors, NoneNew};
ghost use Rattle.disk_model.specs.Work.{SameDisk};
ghost use Rattle.host_top.specs.Begun.{Inits, InitsOn, InitsOver, IsLookedAt, MakesStores};
ghost use Rattle.host_top.specs.Begun.{TriesStores};
ghost use Rattle.host_top.specs.Borrowed.{Lending, snap_in, snaps_below};
ghost use Rattle.host_top.specs.Calls.{DisksStand, NoneFailed, NoneIsListed};
ghost use Rattle.host_top.specs.Files.{KeepsDoors, KeepsFiles, is_out};
ghost use Rattle.line_talk.specs.Causes.{Rose};
ghost use Rattle.line_talk.specs.Streams.{SourceState, Wrote};

use crate::folder::{SESSIONS, journal_name, snap_name};
use crate::outside::{Fetch, Outside};
use crate::say::say_line;
use crate::status::Status;
use disk_model::{Disk, Failed};
use gate_journal::{InitFault, init};
use line_talk::Sink;
use snap_store::make;
use std::alloc::Global;

/// Whether a disk holds nothing.
pub fn is_empty<D: Disk>(disk: &mut D) -> Result<bool, Failed>
    ensures ok { IfOk result (λ empty. IsTrue (D.tells disk.old)
        → (empty ≡ true → D.seen disk.old ≡ []) × (empty ≡ false → 0 < length (D.seen disk.old))) }
    ensures looks { IsLookedAt D.Disk disk.old disk.new }
    ensures images { IsTrue (D.tells disk.old)
        → NoneNew (D.may_leave disk.old) (D.may_leave disk.new) }
    ensures seen { OnOk result (IsTrue (D.tells disk.old) → D.seen disk.new ≡ D.seen disk.old) }
    ensures cause { CountsErrors result (D.faults disk.old) (D.faults disk.new) }
    ensures kept { SameDisk D.Disk disk.old disk.new }
{
    let size = disk.size()?;
    Ok(size == 0)
}

/// Begins a journal on this disk.
fn init_over<D: Disk, K: Sink>(disk: &mut D, output: &mut K) -> Status
    ensures value { InitsOver D.Disk disk.old disk.new
        (K.sink output.old) (K.sink output.new) result }
    ensures kept { SameDisk D.Disk disk.old disk.new }
    ensures read_fault { ¬ (result ≡ Status.ReadFault) }
    ensures write_fault { result ≡ Status.WriteFault
        → Rose (K.sink output.old).faults (K.sink output.new).faults }
    ensures unsaid { result ≡ Status.NoMemory
        → Wrote (K.sink output.old) (K.sink output.new) [] }
{
    match init(disk) {
        Ok(()) => say_line(b"ready\n", Status::Done, output),
        Err(InitFault::NotEmpty) => say_line(b"not empty\n", Status::BadFolder, output),
        Err(InitFault::DiskFault(_)) => Status::DiskFault,
    }
}

/// Makes the store of a session.
fn make_store<O: Outside>(
    alloc: Global,
    folder: &str,
    session: u8,
    outside: &mut O,
) -> Result<(), Fetch>
    ensures ok { OnOk result (MakesStores O.Disk.Disk (snap_in folder.now session ∷ [])
        (O.outside outside.old) (O.outside outside.new)) }
    ensures err { OnErr result (TriesStores O.Disk.Disk (snap_in folder.now session ∷ [])
        (O.outside outside.old) (O.outside outside.new)) }
    ensures cause { IsErrOf result Fetch.Failed
        → Rose (O.outside outside.old).disk_faults (O.outside outside.new).disk_faults }
    // where no call for a disk is to fail, and the store's isn't out, its own disk failed
    ensures stood { NoneIsListed (O.failing_loans outside.old)
        → is_out ((O.outside outside.old).loan (snap_in folder.now session)) ≡ false
        → NoneFailed (O.outside outside.new).loan → ¬ (IsErrOf result Fetch.Failed) }
    ensures listed { NoneIsListed (O.failing_loans outside.old)
        → NoneIsListed (O.failing_loans outside.new) }
    ensures back { (name : List ℕ) → is_out ((O.outside outside.old).loan name) ≡ false
        → is_out ((O.outside outside.new).loan name) ≡ false }
    ensures later { (O.outside outside.old).disk_faults ≤ (O.outside outside.new).disk_faults }
    ensures files { KeepsFiles (O.outside outside.old) (O.outside outside.new) }
    ensures doors { KeepsDoors (O.outside outside.old) (O.outside outside.new) }
{
    let Ok(name) = snap_name(alloc, folder, session) else {
        return Err(Fetch::NoMemory);
    };
    let mut disk = outside.disk(alloc, &name)?;
    let made = make(&mut disk);
    outside.put_back(&name, disk);
    match made {
        Ok(()) => Ok(()),
        Err(_) => Err(Fetch::Failed),
    }
}

/// Makes the stores of all sessions, each with its disk back before the next one's is lent.
pub fn make_stores<O: Outside>(alloc: Global, folder: &str, outside: &mut O) -> Result<(), Fetch>
    ensures ok { OnOk result (MakesStores O.Disk.Disk (snaps_below folder.now 64)
        (O.outside outside.old) (O.outside outside.new)) }
    ensures err { OnErr result (TriesStores O.Disk.Disk (snaps_below folder.now 64)
        (O.outside outside.old) (O.outside outside.new)) }
    ensures cause { IsErrOf result Fetch.Failed
        → Rose (O.outside outside.old).disk_faults (O.outside outside.new).disk_faults }
    ensures stood { NoneIsListed (O.failing_loans outside.old)
        → ((s : ℕ) → s < 64
        → is_out ((O.outside outside.old).loan (snap_in folder.now s)) ≡ false)
        → NoneFailed (O.outside outside.new).loan → ¬ (IsErrOf result Fetch.Failed) }
    ensures later { (O.outside outside.old).disk_faults ≤ (O.outside outside.new).disk_faults }
    ensures files { KeepsFiles (O.outside outside.old) (O.outside outside.new) }
    ensures doors { KeepsDoors (O.outside outside.old) (O.outside outside.new) }
{
    for session in 0..SESSIONS {
        make_store(alloc, folder, session, outside)?;
    }
    Ok(())
}

/// Makes the stores of a folder, whose journal's disk this is, and begins the journal. The size of
/// that disk is looked at before anything is written.
fn init_all<O: Outside, K: Sink>(
    alloc: Global,
    folder: &str,
    disk: &mut O::Disk,
    outside: &mut O,
    output: &mut K,
) -> Status
    ensures value { (stores : List (Lending O.Disk)) × Inits O.Disk.Disk folder.now
        disk.old disk.new stores stores (O.outside outside.old) (O.outside outside.new)
        (K.sink output.old) (K.sink output.new) result }
    ensures kept { SameDisk O.Disk.Disk disk.old disk.new }
    ensures read_fault { ¬ (result ≡ Status.ReadFault) }
    ensures write_fault { result ≡ Status.WriteFault
        → Rose (K.sink output.old).faults (K.sink output.new).faults }
    ensures unsaid { result ≡ Status.NoMemory
        → Wrote (K.sink output.old) (K.sink output.new) [] }
    // where each store's disk stands, the journal's own failed
    ensures stood { NoneIsListed (O.failing_loans outside.old)
        → ((s : ℕ) → s < 64
        → is_out ((O.outside outside.old).loan (snap_in folder.now s)) ≡ false)
        → NoneFailed (O.outside outside.new).loan → result ≡ Status.DiskFault
        → Rose (O.Disk.faults disk.old) (O.Disk.faults disk.new) }
    ensures files { KeepsFiles (O.outside outside.old) (O.outside outside.new) }
    ensures doors { KeepsDoors (O.outside outside.old) (O.outside outside.new) }
{
    match is_empty(disk) {
        Ok(true) => match make_stores(alloc, folder, outside) {
            Ok(()) => init_over(disk, output),
            Err(why) => Status::of_fetch(why),
        },
        Ok(false) => say_line(b"not empty\n", Status::BadFolder, output),
        Err(Failed) => Status::DiskFault,
    }
}

/// Makes the stores of a folder and begins its journal. No input is read.
pub fn init_folder<O: Outside, K: Sink>(
    alloc: Global,
    folder: &str,
    outside: &mut O,
    output: &mut K,
) -> Status
    ensures value { (input : SourceState) → InitsOn O.Disk.Disk folder.now
        (O.outside outside.old) (O.outside outside.new) input input
        (K.sink output.old) (K.sink output.new) result }
    ensures read_fault { ¬ (result ≡ Status.ReadFault) }
    ensures write_fault { result ≡ Status.WriteFault
        → Rose (K.sink output.old).faults (K.sink output.new).faults }
    ensures unsaid { result ≡ Status.NoMemory
        → Wrote (K.sink output.old) (K.sink output.new) [] }
    ensures stood { DisksStand (O.failing_loans outside.old) (O.outside outside.old)
        (O.outside outside.new) → ¬ (result ≡ Status.DiskFault) }
    ensures files { KeepsFiles (O.outside outside.old) (O.outside outside.new) }
    ensures doors { KeepsDoors (O.outside outside.old) (O.outside outside.new) }
{
    let Ok(name) = journal_name(alloc, folder) else {
        return Status::NoMemory;
    };
    let mut disk = match outside.disk(alloc, &name) {
        Ok(disk) => disk,
        Err(why) => return Status::of_fetch(why),
    };
    let status = init_all(alloc, folder, &mut disk, outside, output);
    outside.put_back(&name, disk);
    status
}
