//! The rows of a journal that is only looked at (own).

ghost use Rattle.std.specs.Prelude.{◌≡◌, ℕ, ◌<◌, List, map, IsTrue, IfOk, IfErr, MatchResult};
ghost use Rattle.disk_model.specs.Work.{FailedCall, GoodCalls};
ghost use Rattle.gate_journal.specs.Faults.{Explains, UnlessFault, CountsOpening, IsDiskFault};
ghost use Rattle.gate_journal.specs.Rows.{SpellsRows, IsJournal};
ghost use Rattle.gate_journal.specs.Scan.{LooksAlone, unnumbered};
ghost use Rattle.gate_journal.specs.declared.row.Row.{Row};

use crate::fault::JournalFault;
use crate::load::read_all;
use crate::parse::read_rows;
use crate::row::Row;
use disk_model::Disk;
use std::alloc::Global;

// Each row gets the number 0 in place of its own.
fn clear_numbers(rows: &mut [Row])
    ensures { rows.new ≡ map unnumbered rows.old }
{
    for row in rows.iter_mut() {
        row.by = 0;
    }
}

/// The rows that a journal's bytes spell, in their order, each with the number 0. It asks the disk
/// for its size and its bytes, and writes and syncs nothing. The bytes and all rows are held at once.
pub fn scan<D: Disk>(alloc: Global, disk: &mut D) -> Result<Vec<Row>, JournalFault>
    ensures ok { IfOk result (λ rows. (spelled : List Row) × IsJournal spelled
        × (rows.items ≡ map unnumbered spelled)
        × (IsTrue (D.tells disk.old) → SpellsRows (D.seen disk.old) spelled)) }
    ensures exact { IfErr result (λ e. IsTrue (D.tells disk.old)
        → Explains (D.seen disk.old) e) }
    ensures cause { CountsOpening result (D.faults disk.old) (D.faults disk.new) }
    // After Ok both device calls were good; after a fault of the disk one of them failed.
    ensures calls { IsTrue (D.tells disk.old) → MatchResult result
        (λ _. GoodCalls D.Disk 2 disk.old disk.new)
        (λ e. IsDiskFault e → (k : ℕ) × (k < 2)
        × FailedCall D.Disk 0 k disk.old disk.new) }
    ensures seen { UnlessFault result (IsTrue (D.tells disk.old)
        → D.seen disk.new ≡ D.seen disk.old) }
    ensures steady { IsTrue (D.steady disk.old) → IsTrue (D.steady disk.new) }
    ensures kept { LooksAlone D.Disk disk.old disk.new }
{
    let bytes = read_all(alloc, disk)?;
    let mut rows = read_rows(alloc, &bytes)?.into_vec();
    clear_numbers(rows.as_mut_slice());
    Ok(rows)
}
