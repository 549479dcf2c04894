//! A new journal (own).

ghost use Rattle.std.specs.Prelude.{◌≡◌, ◌≤◌, ◌<◌, ◌⊎◌, ◌++◌, [], ◌∷◌};
ghost use Rattle.std.specs.Prelude.{IsTrue, OnOk, IfErr, MatchResult, length, max, ℕ};
ghost use Rattle.disk_model.specs.Disk.{Only, AfterWrite};
ghost use Rattle.disk_model.specs.Work.{SameDisk, LeavesOnly, OnlyLooks, FailedCall, GoodCalls};
ghost use Rattle.gate_journal.specs.Rows.{journal_header};
ghost use Rattle.gate_journal.specs.Faults.{HasInitCause};
ghost use Rattle.gate_journal.specs.declared.fault.InitFault.TheVariants as InitFault;

use crate::fault::{DiskFault, InitFault};
use disk_model::{Disk, write_through};

const EMPTY: [u8; 17] = [83, 84, 72, 74, 0, 0, 0, 1, 1, 0, 0, 0, 0, 0, 0, 0, 0];

/// Writes a journal without rows on an empty disk: the header and a zero byte as its closing gate.
/// `NotEmpty` exactly where the disk's size isn't 0. Three device calls.
pub fn init<D: Disk>(disk: &mut D) -> Result<(), InitFault>
    // From then on a stop leaves the 17 bytes and nothing else.
    ensures ok { OnOk result (IsTrue (D.tells disk.old)
        → (D.seen disk.old ≡ []) × Only (journal_header ++ 0 ∷ []) (D.may_leave disk.new)) }
    ensures exact { MatchResult result (λ _. D.faults disk.new ≡ D.faults disk.old)
        (λ e. HasInitCause (D.tells disk.old) (D.seen disk.old)
        (D.faults disk.old) (D.faults disk.new) e) }
    ensures works { IsTrue (D.steady disk.old)
        → (17 ≤ D.room disk.old → IfErr result (λ e. e ≡ InitFault.NotEmpty))
        × IsTrue (D.steady disk.new) }
    // Where the disk holds something, or fails as its size is asked, nothing is written, whatever
    // is answered.
    ensures looks { (IsTrue (D.tells disk.old) × (0 < length (D.seen disk.old)))
        ⊎ IsTrue (D.fails_at disk.old (D.moment disk.old))
        → OnlyLooks D.Disk disk.old disk.new }
    ensures seen { IfErr result (λ e. e ≡ InitFault.NotEmpty
        → IsTrue (D.tells disk.old) → D.seen disk.new ≡ D.seen disk.old) }
    // Where it isn't empty, nothing is written.
    ensures err { IfErr result (λ e. e ≡ InitFault.NotEmpty
        → (D.reach disk.new ≡ D.reach disk.old)
        × (IsTrue (D.tells disk.old)
        → LeavesOnly D.Disk disk.old disk.new (D.may_leave disk.old))) }
    ensures kept { SameDisk D.Disk disk.old disk.new }
    ensures reach { D.reach disk.new ≤ max (D.reach disk.old) 17 }
    ensures crash { IsTrue (D.tells disk.old)
        → LeavesOnly D.Disk disk.old disk.new (λ c. AfterWrite 0 17 (D.may_leave disk.old) c) }
    // After Ok three device calls were made, all good; after a fault of the disk which of them failed.
    ensures calls { IsTrue (D.tells disk.old) → MatchResult result
        (λ _. GoodCalls D.Disk 3 disk.old disk.new)
        (λ e. ¬ (e ≡ InitFault.NotEmpty) → (k : ℕ) × (k < 3)
        × FailedCall D.Disk 17 k disk.old disk.new) }
{
    let from = disk.faults();
    let Ok(size) = disk.size() else {
        let to = disk.faults();
        return Err(InitFault::DiskFault(DiskFault { from, to }));
    };
    if size != 0 {
        return Err(InitFault::NotEmpty);
    }
    let Ok(()) = write_through(disk, 0, &EMPTY) else {
        let to = disk.faults();
        return Err(InitFault::DiskFault(DiskFault { from, to }));
    };
    Ok(())
}
