//! Disks that a command is lent by their names, and that it puts back.
ghost use Rattle.std.specs.Prelude.{◌≡◌, ◌≤◌, ℕ, List, Some, IfOk, OnOk, OnErr, IfErr, IsErrOf};
ghost use Rattle.std.specs.Prelude.{false, length, map, string_bytes, slice_get};
ghost use Rattle.line_talk.specs.Causes.{Rose};
ghost use Rattle.line_talk.specs.Streams.{SinkState, SourceState};
ghost use Rattle.host_top.specs.Borrowed.{AreDifferentNames, AreAsGiven, AreNamed, Borrowed};
ghost use Rattle.host_top.specs.Borrowed.{Lending, NotLent, PutsBack, journal_in, lent_as};
ghost use Rattle.host_top.specs.Borrowed.{names_of, snaps_below};
ghost use Rattle.host_top.specs.Calls.{NoneIsListed, NoneIsOut};
ghost use Rattle.host_top.specs.Files.{IsLent, KeepsDoors, KeepsFiles, OutsideState, is_out};
ghost use Rattle.host_top.specs.Folder.{AreOut, Handled, IsSameBack, folder_back};
ghost use Rattle.host_top.specs.Status.{status_of_fetch};
ghost use Rattle.turn_cell.specs.History.{Each};

use crate::folder::{Back, Disks, Names, names_in};
use crate::outside::{Fetch, Outside};
use std::alloc::Global;

/// Puts disks back under these names.
pub fn put_all_back<O: Outside>(names: &[String], disks: Vec<O::Disk>, outside: &mut O)
    requires many { length disks.items ≤ length names.now }
    requires names { AreDifferentNames (map string_bytes names.now) }
    requires lent { (i : ℕ) (name : List ℕ) (disk : O.Disk)
        → slice_get (map string_bytes names.now) i ≡ Some name
        → slice_get disks.items i ≡ Some disk
        → IsLent ((O.outside outside.old).loan name) (O.Disk.label disk) }
    ensures back { PutsBack O.Disk.faults (map string_bytes names.now) disks.items
        (O.outside outside.old) (O.outside outside.new) }
    ensures files { KeepsFiles (O.outside outside.old) (O.outside outside.new) }
    ensures doors { KeepsDoors (O.outside outside.old) (O.outside outside.new) }
{
    let mut disks = disks;
    let many = disks.len();
    for _ in 0..many {
        let Some(disk) = disks.pop() else {
            unreachable!("each turn takes one of them");
        };
        outside.put_back(&names[disks.len()], disk);
    }
}

/// Takes the disks of these names. Where one isn't lent, those that were are put back.
pub fn take_all<O: Outside>(
    alloc: Global,
    names: &[String],
    outside: &mut O,
) -> Result<Vec<O::Disk>, Fetch>
    requires names { AreDifferentNames (map string_bytes names.now) }
    ensures ok { IfOk result (λ disks. (length disks.items ≡ length names.now)
        × Borrowed O.Disk.Disk (O.outside outside.old) (O.outside outside.new)
        (lent_as (map string_bytes names.now) disks.items)) }
    ensures count { OnOk result
        ((O.outside outside.new).disk_faults ≡ (O.outside outside.old).disk_faults) }
    ensures err { OnErr result ((ls : List (Lending O.Disk)) × AreAsGiven ls
        × AreNamed (map string_bytes names.now) ls
        × Borrowed O.Disk.Disk (O.outside outside.old) (O.outside outside.new) ls) }
    ensures cause { IsErrOf result Fetch.Failed
        → Rose (O.outside outside.old).disk_faults (O.outside outside.new).disk_faults }
    ensures unlisted { NoneIsListed (O.failing_loans outside.old)
        → Each (λ n. is_out ((O.outside outside.old).loan n) ≡ false)
        (map string_bytes names.now)
        → ¬ (IsErrOf result Fetch.Failed) }
    ensures later { (O.outside outside.old).disk_faults ≤ (O.outside outside.new).disk_faults }
    ensures files { KeepsFiles (O.outside outside.old) (O.outside outside.new) }
    ensures doors { KeepsDoors (O.outside outside.old) (O.outside outside.new) }
{
    let Ok(mut disks) = Vec::with_capacity(alloc, names.len()) else {
        return Err(Fetch::NoMemory);
    };
    for name in names {
        match outside.disk(alloc, name) {
            Ok(disk) => disks.push_reserved(disk),
            Err(why) => {
                put_all_back(names, disks, outside);
                return Err(why);
            }
        }
    }
    Ok(disks)
}

/// Takes the disks of a folder. Where one isn't lent, those that were are put back.
pub fn take_folder<'f, O: Outside>(
    alloc: Global,
    folder: &'f str,
    outside: &mut O,
) -> Result<(Names<'f>, Disks<O::Disk>), Fetch>
    ensures ok { IfOk result (λ pair. (pair.0.folder.now ≡ folder.now)
        × AreOut O.Disk.Disk pair.0.folder.now (O.outside outside.old) (O.outside outside.new)
        pair.1.journal pair.1.snaps.items) }
    ensures err { IfErr result (λ why. (input : SourceState) (output : SinkState)
        → NotLent O.Disk.Disk (names_of folder.now) (O.outside outside.old)
        (O.outside outside.new) input input output output (status_of_fetch why)) }
    ensures unlisted { NoneIsListed (O.failing_loans outside.old)
        → NoneIsOut (O.outside outside.old).loan
        → ¬ (IsErrOf result Fetch.Failed) }
    ensures files { KeepsFiles (O.outside outside.old) (O.outside outside.new) }
    ensures doors { KeepsDoors (O.outside outside.old) (O.outside outside.new) }
{
    let Ok(names) = names_in(alloc, folder) else {
        return Err(Fetch::NoMemory);
    };
    match take_all(alloc, &names.all, outside) {
        Ok(mut snaps) => {
            let journal = snaps.remove(0);
            Ok((names, Disks { journal, snaps }))
        }
        Err(why) => Err(why),
    }
}

/// Puts back what comes back of the disks of a folder, of which each is out.
pub fn put_folder_back<O: Outside>(names: &Names<'_>, back: Back<O::Disk>, outside: &mut O)
    requires out { (before : OutsideState O.Disk) × (given : O.Disk) × (givens : List O.Disk)
        × AreOut O.Disk.Disk names.now.folder.now before (O.outside outside.old) given givens
        × IsSameBack O.Disk.Disk given givens back }
    ensures back { (before : OutsideState O.Disk) (given : O.Disk) (givens : List O.Disk)
        → AreOut O.Disk.Disk names.now.folder.now before (O.outside outside.old) given givens
        → IsSameBack O.Disk.Disk given givens back
        → Handled O.Disk.Disk before (O.outside outside.new)
        (folder_back (journal_in names.now.folder.now) (snaps_below names.now.folder.now 64)
        given givens back) }
    ensures files { KeepsFiles (O.outside outside.old) (O.outside outside.new) }
    ensures doors { KeepsDoors (O.outside outside.old) (O.outside outside.new) }
{
    let Some((journal_name, snap_names)) = names.all.split_first() else {
        unreachable!("the journal has a name");
    };
    match back {
        Back::All(journal, snaps) => {
            put_all_back(snap_names, snaps, outside);
            outside.put_back(journal_name, journal);
        }
        Back::Journal(journal) => outside.put_back(journal_name, journal),
        Back::Snap(session, snap) => {
            outside.put_back(&snap_names[usize::from(session)], snap);
        }
        Back::Nothing => {}
    }
}
