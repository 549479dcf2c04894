//! The repair of an uncertain gate (own).

ghost use Rattle.std.specs.Prelude.{◌≡◌, ◌+◌, List, IsTrue, MatchResult, length, None, Some};
ghost use Rattle.disk_model.specs.Work.{Ran, Triple, MakesCalls};
ghost use Rattle.gate_journal.specs.Rows.{journal_bytes};
ghost use Rattle.gate_journal.specs.Log.{StandsInImage, repair_calls};
ghost use Rattle.gate_journal.specs.declared.row.Row.{Row};

use crate::gate::repair;
use crate::row::Row;
use disk_model::{Disk, Failed};

/// Closes the gate at this end, where it is uncertain; else it leaves it alone.
pub fn settle<D: Disk>(disk: &mut D, uncertain: &mut Option<Row>, end: u64) -> Result<(), Failed>
    ensures triple { (rows : List Row) → end ≡ length (journal_bytes rows)
        → Triple D.Disk result disk.old disk.new
        (StandsInImage rows uncertain.old) (StandsInImage rows uncertain.old)
        (StandsInImage rows None) }
    ensures gate { MatchResult result (λ _. uncertain.new ≡ None)
        (λ _. uncertain.new ≡ uncertain.old) }
    ensures untouched { uncertain.old ≡ None → disk.new ≡ disk.old }
    ensures ran { Ran D.Disk (end + 1) result disk.old disk.new }
    ensures calls { IsTrue (D.tells disk.old) → MakesCalls D.Disk (end + 1)
        (repair_calls uncertain.old) result disk.old disk.new }
{
    if uncertain.is_none() {
        return Ok(());
    }
    let Ok(()) = repair(disk, end) else {
        return Err(Failed);
    };
    *uncertain = None;
    Ok(())
}

/// Of the gate nothing is known from now on; it stands before this row.
pub fn note_uncertain(uncertain: &mut Option<Row>, row: Row)
    ensures { uncertain.new ≡ Some row }
{
    *uncertain = Some(row);
}

/// The row isn't needed.
pub fn let_go(_row: Row) {}
