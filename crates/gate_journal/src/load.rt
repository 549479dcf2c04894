//! The device calls of an opening (own).

ghost use Rattle.std.specs.Prelude.{◌≡◌, ◌⊎◌, ◌+◌, ◌<◌, ◌≤◌, IsTrue, IfOk, IfErr};
ghost use Rattle.std.specs.Prelude.{length, max, slice_index};
ghost use Rattle.disk_model.specs.Disk.{NoneNew};
ghost use Rattle.disk_model.specs.Work.{EachImage, LeavesOnly, SameDisk, OnlyLooks};
ghost use Rattle.gate_journal.specs.Faults.{Explains, IsOfDisk, IsNoFault, UnlessFault};
ghost use Rattle.gate_journal.specs.Faults.{IsFault, CountsOpening, IsDiskFault};
ghost use Rattle.disk_model.specs.Work.{GoodCalls, FailedCall};
ghost use Rattle.gate_journal.specs.Gate.{IsShut};
ghost use Rattle.gate_journal.specs.Rows.{journal_bytes, SpellsRows, IsJournal, version_byte};
ghost use Rattle.gate_journal.specs.Log.{IsMigrating, ReachesGate, rows_of, rows_kept};
ghost use Rattle.gate_journal.specs.Opening.{opening_calls};
ghost use Rattle.std.specs.Prelude.{ℕ, MatchResult};
ghost use Rattle.gate_journal.specs.declared.fault.JournalFault.TheVariants.{DiskFault as on_disk};

use crate::fault::{DiskFault, JournalFault};
use crate::migrate::migrate;
use crate::parse::{Parsed, parse};
use disk_model::Disk;
use std::alloc::Global;

// The disk failed; its count was this before.
fn disk_fault<D: Disk>(disk: &D, from: u64) -> JournalFault
    ensures { result ≡ on_disk (record { from = from; to = D.faults disk.now }) }
{
    JournalFault::DiskFault(DiskFault {
        from,
        to: disk.faults(),
    })
}

/// All bytes: two device calls.
pub fn read_all<D: Disk>(alloc: Global, disk: &mut D) -> Result<Vec<u8>, JournalFault>
    ensures ok { IfOk result (λ v. IsTrue (D.tells disk.old) → v.items ≡ D.seen disk.old) }
    ensures within { IfOk result (λ v. length v.items ≤ D.room disk.old) }
    ensures err { IfErr result IsOfDisk }
    ensures steady { IsTrue (D.steady disk.old) → IsTrue (D.steady disk.new) }
    ensures cause { CountsOpening result (D.faults disk.old) (D.faults disk.new) }
    ensures seen { UnlessFault result (IsTrue (D.tells disk.old)
        → D.seen disk.new ≡ D.seen disk.old) }
    ensures kept { OnlyLooks D.Disk disk.old disk.new }
    ensures none_lost { IsTrue (D.tells disk.old)
        → NoneNew (D.may_leave disk.new) (D.may_leave disk.old) }
    ensures calls { IsTrue (D.tells disk.old) → MatchResult result
        (λ _. GoodCalls D.Disk 2 disk.old disk.new)
        (λ e. IsDiskFault e → (k : ℕ) × (k < 2)
        × FailedCall D.Disk 0 k disk.old disk.new) }
{
    let from = disk.faults();
    let Ok(size) = disk.size() else {
        return Err(disk_fault(disk, from));
    };
    let mut bytes = vec![in alloc; 0; size as usize]?;
    let Ok(()) = disk.read_at(0, bytes.as_mut_slice()) else {
        return Err(disk_fault(disk, from));
    };
    Ok(bytes)
}

/// The rows of a journal, its closing gate closed and of version 2: a sync, a size and a read;
/// where the gate isn't 0 a write and a sync more, and then, where it is of version 1, two more.
pub fn load<D: Disk>(alloc: Global, disk: &mut D) -> Result<Parsed, JournalFault>
    ensures ok { IfOk result (λ p. IsTrue (D.tells disk.old)
        → SpellsRows (D.seen disk.old) (rows_of p.history.list)) }
    ensures fresh { IfOk result (λ p. p.history.list ≡ rows_kept (rows_of p.history.list)) }
    ensures journal { IfOk result (λ p. IsJournal (rows_of p.history.list)
        × (p.end ≡ length (journal_bytes (rows_of p.history.list)))
        × (p.end < D.room disk.old)) }
    ensures shut { IfOk result (λ p. EachImage D.Disk disk.new
        (IsShut (journal_bytes (rows_of p.history.list)))) }
    ensures exact { IfErr result (λ e. IsTrue (D.tells disk.old)
        → Explains (D.seen disk.old) e) }
    // Unless the disk failed a refusal leaves it as it was.
    ensures refused { IfErr result (λ e. IsNoFault e
        → OnlyLooks D.Disk disk.old disk.new
        × (IsTrue (D.tells disk.old) → D.seen disk.new ≡ D.seen disk.old)) }
    ensures steady { IsTrue (D.steady disk.old) → IsTrue (D.steady disk.new) }
    ensures cause { CountsOpening result (D.faults disk.old) (D.faults disk.new) }
    ensures migrates { IsTrue (D.tells disk.old)
        → LeavesOnly D.Disk disk.old disk.new
        (λ c. D.may_leave disk.old c ⊎ IsMigrating (D.seen disk.old) c) }
    ensures reach { D.reach disk.new ≤ max (D.reach disk.old) (D.room disk.old) }
    ensures told_reach { IsTrue (D.tells disk.old)
        → D.reach disk.new ≤ max (D.reach disk.old) (length (D.seen disk.old)) }
    ensures ends { IfOk result (λ p. D.reach disk.new ≤ max (D.reach disk.old) (p.end + 1)) }
    ensures writes { IsTrue (D.tells disk.old)
        → ReachesGate (D.seen disk.old) (D.reach disk.old) (D.reach disk.new) }
    // A gate that is 0 is left alone, and so is version 2.
    ensures untouched { IfOk result (λ p. IsTrue (D.tells disk.old)
        → slice_index (D.seen disk.old) p.end ≡ 0 → version_byte (D.seen disk.old) ≡ 1
        → D.reach disk.new ≡ D.reach disk.old) }
    ensures kept { SameDisk D.Disk disk.old disk.new }
    ensures calls { IsTrue (D.tells disk.old) → MatchResult result
        (λ p. GoodCalls D.Disk (opening_calls (D.seen disk.old) p.end) disk.old disk.new)
        (λ e. IsDiskFault e → (k : ℕ) × (k < 7)
        × FailedCall D.Disk 0 k disk.old disk.new) }
{
    let from = disk.faults();
    let Ok(()) = disk.sync() else {
        return Err(disk_fault(disk, from));
    };
    let bytes = read_all(alloc, disk)?;
    let parsed = parse(alloc, &bytes)?;
    let gate = bytes[parsed.end as usize];
    let Ok(()) = migrate(disk, parsed.end, gate, bytes[8]) else {
        return Err(disk_fault(disk, from));
    };
    Ok(parsed)
}
