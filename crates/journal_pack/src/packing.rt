//! A journal packed into another one (own).

ghost use Rattle.std.specs.Prelude.{◌≡◌, ◌⊎◌, ◌+◌, ◌<◌, ◌≤◌, ◌++◌, [], ◌∷◌, List, length, max};
ghost use Rattle.std.specs.Prelude.{ℕ, IsTrue, IfOk, IfErr, MatchResult};
ghost use Rattle.disk_model.specs.Disk.{Only};
ghost use Rattle.disk_model.specs.Work.{LeavesOnly, OnlyLooks, SameDisk, FailedCall, GoodCalls};
ghost use Rattle.gate_journal.specs.declared.row.Row.{Row};
ghost use Rattle.gate_journal.specs.Faults.{Explains, UnlessFault, CountsOpening, IsDiskFault};
ghost use Rattle.gate_journal.specs.Rows.{rows_behind_open_gates};
ghost use Rattle.gate_journal.specs.Scan.{LooksAlone};
ghost use Rattle.journal_pack.specs.Faults.{CountsPacking, Refuses, IsBefore};
ghost use Rattle.journal_pack.specs.Faults.{IsNewFault, IsOldFault, OnlyNewWhere, UnlessOldFault};
ghost use Rattle.journal_pack.specs.Images.{IsRefused, NoneOrAll, closed_journal};
ghost use Rattle.journal_pack.specs.Live.{live_rows, packed, AreRowsOf};

use crate::fault::{PackFault, Packed};
use crate::kept::live_among;
use crate::written::{bytes_behind_header, write_whole};
use disk_model::Disk;
use gate_journal::{DiskFault, JournalFault, scan};
use std::alloc::Global;

/// What a packed journal has behind its header, and how many rows that are.
#[derive(Drop)]
struct Found {
    packed: Packed,
    body: Vec<u8>,
}

// All that is to be written: the old disk is only looked at.
fn find<D: Disk>(alloc: Global, old: &mut D) -> Result<Found, JournalFault>
    ensures ok { IfOk result (λ found. (rows : List Row)
        × AreRowsOf (D.tells old.old) (D.seen old.old) rows
        × (found.packed ≡ record { kept = length (live_rows rows); all = length rows })
        × (found.body.items ≡ rows_behind_open_gates (live_rows rows) ++ 0 ∷ [])) }
    ensures exact { IfErr result (λ e. IsTrue (D.tells old.old) → Explains (D.seen old.old) e) }
    ensures cause { CountsOpening result (D.faults old.old) (D.faults old.new) }
    ensures seen { UnlessFault result (IsTrue (D.tells old.old)
        → D.seen old.new ≡ D.seen old.old) }
    ensures calls { IsTrue (D.tells old.old) → MatchResult result
        (λ _. GoodCalls D.Disk 2 old.old old.new)
        (λ e. IsDiskFault e → (k : ℕ) × (k < 2)
        × FailedCall D.Disk 0 k old.old old.new) }
    ensures steady { IsTrue (D.steady old.old) → IsTrue (D.steady old.new) }
    ensures kept { LooksAlone D.Disk old.old old.new }
{
    let rows = scan(alloc, old)?;
    let all = rows.len() as u64;
    let kept = live_among(alloc, rows)?;
    let body = bytes_behind_header(alloc, &kept)?;
    let packed = Packed {
        kept: kept.len() as u64,
        all,
    };
    Ok(Found { packed, body })
}

/// Writes the live rows of the old disk's journal to the new disk, which is to be empty. The new
/// disk is looked at first, then the old one is read, and all memory is taken before anything is
/// written.
pub fn pack<D: Disk>(alloc: Global, old: &mut D, new: &mut D) -> Result<Packed, PackFault>
    // From then on a stop leaves the live rows and a closed gate, and nothing else.
    ensures ok { IfOk result (λ answer. (rows : List Row)
        × AreRowsOf (D.tells old.old) (D.seen old.old) rows
        × (answer ≡ record { kept = length (live_rows rows); all = length rows })
        × (IsTrue (D.tells new.old)
        → (D.seen new.old ≡ []) × Only (closed_journal (packed rows)) (D.may_leave new.new))) }
    ensures exact { IfErr result (Refuses
        (record { tells = D.tells old.old; bytes = D.seen old.old })
        (record { tells = D.tells new.old; bytes = D.seen new.old })) }
    ensures cause { CountsPacking result
        (record { old = D.faults old.old; new = D.faults new.old })
        (record { old = D.faults old.new; new = D.faults new.new }) }
    // Unless the new disk fails a refusal leaves it as it was.
    ensures refused { IfErr result (λ e. IsBefore e
        → OnlyLooks D.Disk new.old new.new
        × (IsTrue (D.tells new.old) → D.seen new.new ≡ D.seen new.old)) }
    // A steady disk fails only where the packed journal would end past its room.
    ensures works { IsTrue (D.steady new.old) → IsTrue (D.steady new.new)
        × IfErr result (OnlyNewWhere ((rows : List Row)
        × AreRowsOf (D.tells old.old) (D.seen old.old) rows
        × (D.room new.old < length (closed_journal (packed rows))))) }
    ensures kept { SameDisk D.Disk new.old new.new }
    ensures reach { (D.reach new.new ≡ D.reach new.old) ⊎ ((rows : List Row)
        × AreRowsOf (D.tells old.old) (D.seen old.old) rows
        × (D.reach new.new
        ≤ max (D.reach new.old) (length (closed_journal (packed rows))))) }

    // Where nothing is pending, each image meanwhile is no journal, or that of all live rows.
    ensures crash { IsTrue (D.tells new.old) → Only [] (D.may_leave new.old)
        → LeavesOnly D.Disk new.old new.new
        (λ c. IsRefused c ⊎ ((rows : List Row)
        × AreRowsOf (D.tells old.old) (D.seen old.old) rows
        × NoneOrAll (packed rows) c)) }

    // After Ok seven device calls were made of it, all good; after a fault of it which of them failed.
    ensures calls { IsTrue (D.tells new.old) → MatchResult result
        (λ _. GoodCalls D.Disk 7 new.old new.new)
        (λ e. IsNewFault e → (k : ℕ) × (k < 7)
        × (FailedCall D.Disk 0 k new.old new.new
        ⊎ ((rows : List Row) × AreRowsOf (D.tells old.old) (D.seen old.old) rows
        × FailedCall D.Disk (length (closed_journal (packed rows))) k new.old new.new))) }

    // The old disk is only looked at: a size and a read.
    ensures old { LooksAlone D.Disk old.old old.new }
    ensures old_steady { IsTrue (D.steady old.old) → IsTrue (D.steady old.new) }
    ensures old_seen { UnlessOldFault result (IsTrue (D.tells old.old)
        → D.seen old.new ≡ D.seen old.old) }
    ensures old_calls { IsTrue (D.tells old.old) → MatchResult result
        (λ _. GoodCalls D.Disk 2 old.old old.new)
        (λ e. IsOldFault e → (k : ℕ) × (k < 2)
        × FailedCall D.Disk 0 k old.old old.new) }
{
    let from = new.faults();
    let Ok(size) = new.size() else {
        let to = new.faults();
        return Err(PackFault::New(DiskFault { from, to }));
    };
    if size != 0 {
        return Err(PackFault::NotEmpty);
    }
    let Found { packed, body } = match find(alloc, old) {
        Ok(found) => found,
        Err(JournalFault::NoMemory) => return Err(PackFault::NoMemory),
        Err(fault) => return Err(PackFault::Old(fault)),
    };
    let Ok(()) = write_whole(new, &body) else {
        let to = new.faults();
        return Err(PackFault::New(DiskFault { from, to }));
    };
    Ok(packed)
}
