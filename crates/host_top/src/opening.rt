//! A host is opened over the disks of a folder, or the output is told why it isn't.
ghost use Rattle.std.specs.Prelude.{◌≡◌, List, IfOk, IfErr, IsTrue, length};
ghost use Rattle.std.specs.List.{AllZip};
ghost use Rattle.gate_journal.specs.Command.{IsBudget};
ghost use Rattle.gate_journal.specs.Rows.{SpellsRows};
ghost use Rattle.gate_journal.specs.declared.row.Row.{Row};
ghost use Rattle.host_serve.specs.Hosts.{IsSound, rows_at_opening, opened_stores};
ghost use Rattle.host_serve.specs.Opening.{AreAgreed, IsOpenedHost, IsStoreOf};
ghost use Rattle.line_talk.specs.Causes.{Rose};
ghost use Rattle.line_talk.specs.Streams.{SourceState};
ghost use Rattle.host_top.specs.Folder.{IsSameBack};
ghost use Rattle.host_top.specs.Piped.{HostedOver};

use crate::folder::{Back, Disks};
use crate::say::say_fault;
use crate::status::Status;
use disk_model::Disk;
use host_serve::{Host, OpenFault, Passes};
use line_talk::Sink;
use std::alloc::Global;
use story_run::Story;

/// Opens the host of a folder whose disks these are. Where the journal is refused a line says why,
/// and its disk comes back; so does the disk of a store that fails. All are let go where memory is
/// wanted behind the journal's opening. No input is read.
pub fn open_host<'i, D: Disk + Drop, K: Sink>(
    alloc: Global,
    stories: &'i [Story<'i>],
    budget: u64,
    disks: Disks<D>,
    output: &mut K,
) -> Result<(Host<'i, D>, Passes<'i, D>), (Status, Back<D>)>
    requires budget { IsBudget budget }
    requires many { length disks.snaps.items ≡ 64 }
    ensures ok { IfOk result (λ pair. (rows : List Row)
        × (IsTrue (D.tells disks.journal) → SpellsRows (D.seen disks.journal) rows)
        × IsOpenedHost stories.now budget rows
        (record { disk = disks.journal; found = length rows }) pair.0 pair.1) }
    ensures stores { IfOk result
        (λ pair. AllZip (IsStoreOf D.Disk) disks.snaps.items (opened_stores pair.0)) }
    ensures sound { IfOk result (λ pair. AreAgreed D.Disk stories.now
        (rows_at_opening pair.0) disks.snaps.items → IsSound D.Disk pair.0) }
    ensures silent { IfOk result (λ _. K.sink output.new ≡ K.sink output.old) }
    ensures refused { IfErr result (λ refusal. (input : SourceState) → HostedOver (λ _ _. ⊥)
        D.Disk disks.journal disks.snaps.items refusal.1 input input
        (K.sink output.old) (K.sink output.new) refusal.0) }
    ensures kept { IfErr result (λ refusal.
        IsSameBack D.Disk disks.journal disks.snaps.items refusal.1) }
    ensures status { IfErr result (λ refusal. ¬ (refusal.0 ≡ Status.Done)
        × ¬ (refusal.0 ≡ Status.DoorFault) × ¬ (refusal.0 ≡ Status.ReadFault)) }
    ensures write_fault { IfErr result (λ refusal. refusal.0 ≡ Status.WriteFault
        → Rose (K.sink output.old).faults (K.sink output.new).faults) }
{
    match Host::open(alloc, stories, disks.journal, disks.snaps, budget) {
        Ok(opened) => Ok(opened),
        Err(OpenFault::Journal(fault, disk)) => {
            Err((say_fault(alloc, fault, output), Back::Journal(disk)))
        }
        Err(OpenFault::Snap { session, disk, .. }) => {
            Err((Status::DiskFault, Back::Snap(session, disk)))
        }
        Err(OpenFault::NoMemory) => Err((Status::NoMemory, Back::Nothing)),
    }
}
