//! The device calls of an append, and of the repair before it (own).

ghost use Rattle.std.specs.Prelude.{◌≡◌, ◌⊎◌, ◌+◌, ◌<◌, ◌≤◌, ◌++◌, ◌∷◌};
ghost use Rattle.std.specs.Prelude.{ℕ, List, IsErrOf, IsTrue, OnOk, length};
ghost use Rattle.disk_model.specs.Disk.{Holds};
ghost use Rattle.disk_model.specs.Work.{EachImage, Ran, Triple, GoodCalls, FailedCall, MakesCalls};
ghost use Rattle.gate_journal.specs.Gate.{IsShut, IsUnsure};

use disk_model::{Disk, Failed, write_through};

/// Where the writing of a row failed.
#[derive(Clone, Copy, Debug, PartialEq, Eq)]
pub enum RowFault {
    /// Before anything was asked of the gate.
    Before,
    /// In the gate's write, or in the sync after it.
    AtGate,
}

/// Closes an uncertain gate: two device calls. While it goes on the gate stays uncertain.
pub fn repair<D: Disk>(disk: &mut D, gate: u64) -> Result<(), Failed>
    ensures triple { (front past : List ℕ) → length front ≡ gate
        → Triple D.Disk result disk.old disk.new
        (IsUnsure front past) (IsUnsure front past) (IsShut front) }
    ensures ran { Ran D.Disk (gate + 1) result disk.old disk.new }
    ensures calls { IsTrue (D.tells disk.old)
        → MakesCalls D.Disk (gate + 1) 2 result disk.old disk.new }
{
    write_through(disk, gate, &[0])
}

/// Writes a row, and the next gate closed, behind a closed gate; syncs; opens that gate; syncs.
/// Four device calls.
pub fn write_row<D: Disk>(disk: &mut D, gate: u64, past: &[u8]) -> Result<(), RowFault>
    requires { gate < D.room disk.old }
    ensures triple { (front : List ℕ) → length front ≡ gate
        → Triple D.Disk result disk.old disk.new
        (IsShut front) (λ c. IsShut front c ⊎ IsUnsure front past.now c)
        (λ c. Holds c 0 (front ++ 1 ∷ past.now)) }
    ensures before { IsErrOf result RowFault.Before
        → (front : List ℕ) → length front ≡ gate
        → EachImage D.Disk disk.old (IsShut front) → EachImage D.Disk disk.new (IsShut front) }
    ensures at_gate { IsErrOf result RowFault.AtGate
        → (front : List ℕ) → length front ≡ gate
        → EachImage D.Disk disk.old (IsShut front)
        → EachImage D.Disk disk.new (IsUnsure front past.now) }
    ensures fits { OnOk result (gate + 1 + length past.now ≤ D.room disk.old) }
    ensures ran { Ran D.Disk (gate + 1 + length past.now) result disk.old disk.new }
    ensures calls { OnOk result (IsTrue (D.tells disk.old)
        → GoodCalls D.Disk 4 disk.old disk.new) }
    ensures row_failed { IsErrOf result RowFault.Before → IsTrue (D.tells disk.old)
        → (k : ℕ) × (k < 2) × FailedCall D.Disk (gate + 1 + length past.now) k disk.old disk.new }
    ensures gate_failed { IsErrOf result RowFault.AtGate → IsTrue (D.tells disk.old)
        → (k : ℕ) × (k < 2) × FailedCall D.Disk
        (gate + 1 + length past.now) (2 + k) disk.old disk.new }
{
    let Ok(()) = write_through(disk, gate + 1, past) else {
        return Err(RowFault::Before);
    };
    let Ok(()) = write_through(disk, gate, &[1]) else {
        return Err(RowFault::AtGate);
    };
    Ok(())
}
