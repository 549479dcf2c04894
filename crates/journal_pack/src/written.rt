//! A journal written whole on an empty disk, its header last (own).

ghost use Rattle.std.specs.Prelude.{◌≡◌, ◌+◌, ◌++◌, [], ◌∷◌, List, IfOk, OnOk, IsTrue, length};
ghost use Rattle.disk_model.specs.Disk.{Only};
ghost use Rattle.disk_model.specs.Work.{MakesCalls, Ran, Triple};
ghost use Rattle.gate_journal.specs.declared.row.Row.{Row};
ghost use Rattle.gate_journal.specs.Rows.{rows_behind_open_gates, IsJournal};
ghost use Rattle.journal_pack.specs.Images.{NoneOrAll, closed_journal};
ghost use Rattle.journal_pack.specs.Live.{HaveRanges};

use disk_model::{Disk, Failed, write_through};
use gate_journal::{Row, row_bytes};
use std::alloc::{AllocError, Global};

/// What a packed journal begins with: the header of version 2.
const HEADER: [u8; 16] = [83, 84, 72, 74, 0, 0, 0, 1, 1, 0, 0, 0, 0, 0, 0, 0];

/// What stands behind the header of a journal of these rows: each behind an open gate, and a closed
/// gate.
pub fn bytes_behind_header(alloc: Global, rows: &[Row]) -> Result<Vec<u8>, AllocError>
    requires { HaveRanges rows.now }
    ensures { IfOk result (λ v. v.items ≡ rows_behind_open_gates rows.now ++ 0 ∷ []) }
{
    let mut bytes = Vec::new(alloc);
    bytes.push(0)?;
    for row in rows {
        let body = row_bytes(alloc, row.session, &row.command)?;
        bytes.pop();
        bytes.push(1)?;
        bytes.extend_from_slice(&body)?;
    }
    Ok(bytes)
}

/// Writes zeros in the header's place, then these bytes behind them, then the header, each step
/// durable before the next: six device calls. Until the last of them no image is a journal but the
/// whole one.
pub fn write_whole<D: Disk>(disk: &mut D, body: &[u8]) -> Result<(), Failed>
    ensures triple { (rows : List Row) → IsJournal rows
        → body.now ≡ rows_behind_open_gates rows ++ 0 ∷ []
        → Triple D.Disk result disk.old disk.new
        (λ c. c ≡ []) (NoneOrAll rows) (λ c. c ≡ closed_journal rows) }
    ensures ok { OnOk result ((rows : List Row)
        → body.now ≡ rows_behind_open_gates rows ++ 0 ∷ []
        → IsTrue (D.tells disk.old) → D.seen disk.old ≡ []
        → Only (closed_journal rows) (D.may_leave disk.new)) }
    ensures ran { Ran D.Disk (16 + length body.now) result disk.old disk.new }
    ensures calls { IsTrue (D.tells disk.old)
        → MakesCalls D.Disk (16 + length body.now) 6 result disk.old disk.new }
{
    let Ok(()) = write_through(disk, 0, &[0; 16]) else {
        return Err(Failed);
    };
    let Ok(()) = write_through(disk, 16, body) else {
        return Err(Failed);
    };
    write_through(disk, 0, &HEADER)
}
