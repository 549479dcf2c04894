//! A stop of a journal, and the opening of what it left (own).

ghost use Rattle.std.specs.Prelude.{IfOk, IfErr};
ghost use Rattle.gate_journal.specs.Log.{rows_of, MayFind};
ghost use Rattle.gate_journal.specs.Faults.{IsOfDisk};

use crate::fault::JournalFault;
use crate::journal::Journal;
use disk_model::MemDisk;
use std::alloc::Global;

/// Opens one of the images that a stop may leave of this journal, drawn from the number. It has all
/// rows, and at most the one behind an uncertain gate besides.
pub fn stop_and_open(
    alloc: Global,
    journal: Journal<MemDisk>,
    choice: u64,
) -> Result<Journal<MemDisk>, JournalFault>
    ensures ok { IfOk result (λ opened.
        MayFind (rows_of journal.entries) journal.uncertain (rows_of opened.entries)) }
    ensures err { IfErr result IsOfDisk }
{
    let Ok(disk) = journal.into_disk().after_stop(alloc, choice) else {
        return Err(JournalFault::NoMemory);
    };
    match Journal::open(alloc, disk) {
        Ok(opened) => Ok(opened),
        Err((fault, _)) => Err(fault),
    }
}
