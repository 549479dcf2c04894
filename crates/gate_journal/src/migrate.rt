//! The device calls of an opening that write (own).

ghost use Rattle.std.specs.Prelude.{◌≡◌, ◌+◌, ◌≤◌, List, ℕ, IsTrue, slice_index};
ghost use Rattle.disk_model.specs.Work.{Ran, Triple, MakesCalls};
ghost use Rattle.gate_journal.specs.Rows.{version_byte};
ghost use Rattle.gate_journal.specs.Opening.{MayGetByte, MayMigrate, ReachesWrites};
ghost use Rattle.gate_journal.specs.Opening.{migrated, set_calls, with_byte, ReachesByte};

use disk_model::{Disk, Failed, write_through};

/// Where the byte stands that tells a journal's version.
const VERSION_PLACE: u64 = 8;

// The byte at this place becomes this one: two device calls, or none where it stands there.
fn set_byte<D: Disk>(disk: &mut D, place: u64, now: u8, wanted: u8) -> Result<(), Failed>
    ensures triple { (bytes : List ℕ) → slice_index bytes place ≡ now
        → Triple D.Disk result disk.old disk.new
        (λ c. c ≡ bytes) (MayGetByte bytes place wanted) (λ c. c ≡ with_byte bytes place wanted) }
    ensures ran { Ran D.Disk (place + 1) result disk.old disk.new }
    ensures reach { ReachesByte place now wanted (D.reach disk.old) (D.reach disk.new) }
    ensures calls { IsTrue (D.tells disk.old) → MakesCalls D.Disk (place + 1)
        (set_calls now wanted) result disk.old disk.new }
{
    if now == wanted {
        return Ok(());
    }
    write_through(disk, place, &[wanted])
}

/// Closes the gate at this end, and then makes the journal one of version 2: two device calls for
/// each of both bytes that isn't so yet.
pub fn migrate<D: Disk>(disk: &mut D, end: u64, gate: u8, version: u8) -> Result<(), Failed>
    requires { 9 ≤ end }
    ensures triple { (bytes : List ℕ) → slice_index bytes end ≡ gate
        → version_byte bytes ≡ version
        → Triple D.Disk result disk.old disk.new
        (λ c. c ≡ bytes) (MayMigrate bytes end) (λ c. c ≡ migrated bytes end) }
    ensures ran { Ran D.Disk (end + 1) result disk.old disk.new }
    ensures reach { ReachesWrites end gate version (D.reach disk.old) (D.reach disk.new) }
    ensures calls { IsTrue (D.tells disk.old) → MakesCalls D.Disk (end + 1)
        (set_calls gate 0 + set_calls version 1) result disk.old disk.new }
{
    let Ok(()) = set_byte(disk, end, gate, 0) else {
        return Err(Failed);
    };
    let Ok(()) = set_byte(disk, VERSION_PLACE, version, 1) else {
        return Err(Failed);
    };
    Ok(())
}
