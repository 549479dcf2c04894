//! One file as a journal or a snapshot sees it: what it reads as, and what a stop may leave.

ghost use Rattle.std.specs.Prelude.{◌≡◌, ◌⊎◌, ◌+◌, ◌<◌, ◌≤◌, ◌^◌, ℕ, Bool, List, length, max};
ghost use Rattle.std.specs.Prelude.{IsTrue, IsOk, IsErr, IfOk, OnOk, OnErr, is_ok};
ghost use Rattle.disk_model.specs.Disk.{ReadsFile, file_written, Torn, Follows, NoneNew, Only};
ghost use Rattle.disk_model.specs.Disk.{Elapses, CountsErrors, KeepsWords, FindsNoMemory};
ghost use Rattle.disk_model.specs.DiskState.{Asked, Looked, Wrote, Synced};

/// The call failed, and was counted.
#[derive(Clone, Copy, Debug, PartialEq, Eq)]
pub struct Failed;

/// A file of bytes that may fail and stop at any call. Bytes past its end read as 0.
///
/// What it reads as is told of calls that answer Ok alone; what a stop may leave, of all.
pub trait Disk {
    /// It tells what it holds. A real file doesn't, and then no clause speaks of its content.
    ghost tells: { Self → Bool };

    /// It fails in nothing but a write past its room.
    ghost steady: { Self → Bool };

    /// The call of this moment is to fail.
    ghost fails_at: { Self → ℕ → Bool };

    /// The bytes that it reads as. Past their end stand zeros.
    ghost seen: { Self → List ℕ };

    /// The images that a stop at this moment may leave.
    ghost may_leave: { Self → List ℕ → Type 0 };

    /// The moment, as a number that doesn't fall.
    ghost moment: { Self → ℕ };

    /// The images of all moments from that one on.
    ghost left_since: { Self → ℕ → List ℕ → Type 0 };

    /// How often a call has failed. At the end of a u64 it stands still.
    ghost faults: { Self → ℕ };

    /// The greatest end of any write asked of it.
    ghost reach: { Self → ℕ };

    /// It holds no more bytes than this.
    ghost room: { Self → ℕ };

    /// By which its outside knows it.
    ghost label: { Self → ℕ };

    /// What a call makes of it, said whole: the disk before, what was asked, whether that was good,
    /// and the disk after. One that keeps this default says nothing more than the clauses below.
    ghost makes: { Self → Asked → Bool → Self → Type 0 } = { λ _ _ _ _. Unit {0} };

    /// How many bytes it holds.
    fn size(&mut self) -> Result<u64, Failed>
        ensures ok { IfOk result (λ n. (n ≤ room self.old)
            × (IsTrue (tells self.old) → n ≡ length (seen self.old))) }
        ensures works { IsTrue (steady self.old) → IsOk result × IsTrue (steady self.new) }
        ensures err { IsTrue (fails_at self.old (moment self.old)) → IsErr result }
        // One that tells fails where it was to fail, or for want of memory alone.
        ensures only { OnErr result (IsTrue (tells self.old)
            → FindsNoMemory seen may_leave moment self.old self.new
            ⊎ IsTrue (fails_at self.old (moment self.old))) }
        ensures listed { fails_at self.new ≡ fails_at self.old }
        ensures cause { CountsErrors result (faults self.old) (faults self.new) }
        ensures seen { OnOk result (IsTrue (tells self.old) → seen self.new ≡ seen self.old) }
        ensures crash { IsTrue (tells self.old)
            → NoneNew (may_leave self.old) (may_leave self.new) }
        ensures none_lost { IsTrue (tells self.old)
            → NoneNew (may_leave self.new) (may_leave self.old) }
        ensures time { Elapses (moment self.old) (moment self.new)
            (left_since self.old) (left_since self.new) (may_leave self.new) }
        // Each call counts a moment, but for one that found no memory.
        ensures clock { IsTrue (tells self.old)
            → (moment self.new ≡ moment self.old + 1)
            ⊎ (IsErr result × FindsNoMemory seen may_leave moment self.old self.new) }
        ensures reach { reach self.new ≡ reach self.old }
        ensures kept { KeepsWords tells room label self.old self.new }
        ensures whole { makes self.old Looked (is_ok result) self.new };

    /// Fills `into` with the bytes from this place on, and with zeros past the end.
    fn read_at(&mut self, place: u64, into: &mut [u8]) -> Result<(), Failed>
        ensures ok { OnOk result (IsTrue (tells self.old)
            → ReadsFile (seen self.old) place into.new) }
        ensures works { IsTrue (steady self.old) → IsOk result × IsTrue (steady self.new) }
        ensures err { IsTrue (fails_at self.old (moment self.old)) → IsErr result }
        // One that tells fails where it was to fail, or for want of memory alone.
        ensures only { OnErr result (IsTrue (tells self.old)
            → FindsNoMemory seen may_leave moment self.old self.new
            ⊎ IsTrue (fails_at self.old (moment self.old))) }
        ensures listed { fails_at self.new ≡ fails_at self.old }
        ensures cause { CountsErrors result (faults self.old) (faults self.new) }
        ensures seen { OnOk result (IsTrue (tells self.old) → seen self.new ≡ seen self.old) }
        ensures crash { IsTrue (tells self.old)
            → NoneNew (may_leave self.old) (may_leave self.new) }
        ensures none_lost { IsTrue (tells self.old)
            → NoneNew (may_leave self.new) (may_leave self.old) }
        ensures time { Elapses (moment self.old) (moment self.new)
            (left_since self.old) (left_since self.new) (may_leave self.new) }
        // Each call counts a moment, but for one that found no memory.
        ensures clock { IsTrue (tells self.old)
            → (moment self.new ≡ moment self.old + 1)
            ⊎ (IsErr result × FindsNoMemory seen may_leave moment self.old self.new) }
        ensures reach { reach self.new ≡ reach self.old }
        ensures kept { KeepsWords tells room label self.old self.new }
        ensures whole { makes self.old Looked (is_ok result) self.new };

    /// Puts the piece at this place, with zeros where that leaves a gap past the old end.
    /// A write that fails may have put any bytes in its range, but none past the room.
    fn write_at(&mut self, place: u64, piece: &[u8]) -> Result<(), Failed>
        ensures ok { OnOk result (IsTrue (tells self.old)
            → seen self.new ≡ file_written (seen self.old) place piece.now) }
        ensures works { IsTrue (steady self.old)
            → (place + length piece.now ≤ room self.old → IsOk result)
            × IsTrue (steady self.new) }
        ensures err { IsTrue (fails_at self.old (moment self.old)) → IsErr result }
        ensures full { room self.old < place + length piece.now
            → IsErr result
            × (IsTrue (tells self.old) → NoneNew (may_leave self.old) (may_leave self.new)) }
        // One that tells fails where it was to fail, past the room, or for want of memory alone.
        ensures only { OnErr result (IsTrue (tells self.old)
            → FindsNoMemory seen may_leave moment self.old self.new
            ⊎ IsTrue (fails_at self.old (moment self.old))
            ⊎ (room self.old < place + length piece.now)) }
        ensures listed { fails_at self.new ≡ fails_at self.old }
        ensures cause { CountsErrors result (faults self.old) (faults self.new) }
        ensures crash { IsTrue (tells self.old)
            → Follows (Torn place (length piece.now)) (may_leave self.old) (may_leave self.new) }
        ensures time { Elapses (moment self.old) (moment self.new)
            (left_since self.old) (left_since self.new) (may_leave self.new) }
        // Each call counts a moment, but for one that found no memory.
        ensures clock { IsTrue (tells self.old)
            → (moment self.new ≡ moment self.old + 1)
            ⊎ (IsErr result × FindsNoMemory seen may_leave moment self.old self.new) }
        ensures reach { reach self.new ≡ max (reach self.old) (place + length piece.now) }
        ensures kept { KeepsWords tells room label self.old self.new }
        ensures whole { makes self.old (Wrote place piece.now) (is_ok result) self.new };

    /// After one that answers Ok a stop leaves what a read gives, and nothing else.
    /// One that fails makes no image, though a read may give other bytes from then on.
    fn sync(&mut self) -> Result<(), Failed>
        ensures ok { OnOk result (IsTrue (tells self.old)
            → Only (seen self.old) (may_leave self.new)) }
        ensures works { IsTrue (steady self.old) → IsOk result × IsTrue (steady self.new) }
        ensures err { IsTrue (fails_at self.old (moment self.old)) → IsErr result }
        // One that tells fails where it was to fail, or for want of memory alone.
        ensures only { OnErr result (IsTrue (tells self.old)
            → FindsNoMemory seen may_leave moment self.old self.new
            ⊎ IsTrue (fails_at self.old (moment self.old))) }
        ensures listed { fails_at self.new ≡ fails_at self.old }
        ensures cause { CountsErrors result (faults self.old) (faults self.new) }
        ensures seen { OnOk result (IsTrue (tells self.old) → seen self.new ≡ seen self.old) }
        ensures crash { IsTrue (tells self.old)
            → NoneNew (may_leave self.old) (may_leave self.new) }
        ensures time { Elapses (moment self.old) (moment self.new)
            (left_since self.old) (left_since self.new) (may_leave self.new) }
        // Each call counts a moment, but for one that found no memory.
        ensures clock { IsTrue (tells self.old)
            → (moment self.new ≡ moment self.old + 1)
            ⊎ (IsErr result × FindsNoMemory seen may_leave moment self.old self.new) }
        ensures reach { reach self.new ≡ reach self.old }
        ensures kept { KeepsWords tells room label self.old self.new }
        ensures whole { makes self.old Synced (is_ok result) self.new };

    /// The count of calls that failed.
    fn faults(&self) -> u64
        ensures value { result ≡ faults self.now };

    /// As it reads, it is one of its images, also after a call that failed.
    ghost seen_may_stay: { (d : Self) → may_leave d (seen d) };

    /// This moment is one of those since an earlier one.
    ghost counts_now: { (d : Self) (t : ℕ) (c : List ℕ)
        → t ≤ moment d → may_leave d c → left_since d t c };

    /// Since this moment there is no other.
    ghost only_now: { (d : Self) (c : List ℕ) → left_since d (moment d) c → may_leave d c };

    /// It holds no more than its room.
    ghost size_within: { (d : Self) → IsTrue (tells d) → length (seen d) ≤ room d };

    /// The room is at most 2^40 bytes.
    ghost room_is_small: { (d : Self) → room d ≤ 2 ^ 40 };
}
