//! One session's snapshot file (own).

ghost use Rattle.std.specs.Prelude.{◌≡◌, ◌⊎◌, ◌+◌, ◌<◌, ◌≤◌, ℕ, Bool, IsTrue, IsOk, IfOk, IfErr};
ghost use Rattle.std.specs.Prelude.{OnOk, OnErr, MatchResult, Ok, Some, None, IfSome, length, max};
ghost use Rattle.std.specs.Prelude.{true, false};
ghost use Rattle.disk_model.specs.Disk.{Only};
ghost use Rattle.disk_model.specs.Work.{LeavesOnly, EachImage, SameDisk, OnlyLooks};
ghost use Rattle.disk_model.specs.Work.{FailedCall, GoodCalls, MakesCalls};
ghost use Rattle.snap_store.specs.Frames.{IsFaultOfDisk, HasNewestCause};
ghost use Rattle.snap_store.specs.declared.outline.TheConstants.{MAX_SNAPSHOT};

use crate::area::Area;
use crate::fault::{DiskFault, NewestFault};
use crate::find::{fault_since, find};
use crate::outline::synced_outline;
use crate::side::Side;
use crate::slot::Slots;
use crate::steps::replace;
use disk_model::Disk;
use std::alloc::Global;
use std::marker::Model;

/// The two areas of a snapshot file. Contracts see its disk, whether the file has its header, and
/// what is known of the two gates; the list of its areas is what stands behind gates that aren't
/// closed.
#[derive(Drop)]
pub struct Store<D: Disk> {
    disk: D,
    made: bool,
    slots: Slots,
}

impl<D: Disk> Model for Store<D> {
    ghost use Rattle.snap_store.specs.Store.{Snapshots, IsSoundStore};

    ghost Value = { Snapshots D };

    ghost view = { λ s. record { disk = s.disk; made = s.made; slots = s.slots } };

    ghost invariant = { λ s. IsSoundStore D.Disk
        (record { disk = s.disk; made = s.made; slots = s.slots }) };
}

impl<D: Disk> Store<D> {
    ghost use Rattle.snap_store.specs.File.{Stored, has_header, side_start, open_area};
    ghost use Rattle.snap_store.specs.File.{openable_area};
    ghost use Rattle.snap_store.specs.File.{newest_area, area_given, area_with};
    ghost use Rattle.snap_store.specs.Slots.{opposite_side, slot_of, slot_in, with_slot};
    ghost use Rattle.snap_store.specs.Slots.{closing_calls, taken_side};
    ghost use Rattle.snap_store.specs.Slots.{is_stored};
    ghost use Rattle.snap_store.specs.Store.{store_area, IsImageOf, IsPutImage, IsGiven};
    ghost use Rattle.snap_store.specs.declared.side.Side.{Side};
    ghost use Rattle.snap_store.specs.declared.slot.Slot.TheVariants.{Closed, Open, Unsure};

    /// The store of a disk. A fault hands the disk back.
    pub fn open(mut disk: D) -> Result<Store<D>, (DiskFault, D)>
        // what stands in the file, of which nothing is pending
        ensures ok { IfOk result (λ s. IsTrue (D.tells disk)
            → (s.made ≡ has_header (D.seen disk))
            × ((side : Side) → slot_of s.slots side ≡ slot_in side (D.seen disk))) }
        ensures areas { IfOk result (λ s. IsTrue (D.tells disk)
            → (side : Side) → store_area D.seen s side ≡ openable_area side (D.seen disk)) }
        ensures seen { IfOk result (λ s. IsTrue (D.tells disk)
            → (D.seen s.disk ≡ D.seen disk) × Only (D.seen disk) (D.may_leave s.disk)) }
        ensures images { IfOk result (λ s.
            EachImage D.Disk s.disk (IsImageOf D.seen s)) }
        ensures works { IsTrue (D.steady disk) → IsOk result }

        // only where the disk failed in this call
        ensures cause { IfErr result (λ e. IsFaultOfDisk (D.faults disk) (D.faults e.1) e.0) }
        ensures faults { IfOk result (λ s. D.faults s.disk ≡ D.faults disk) }

        ensures kept { MatchResult result
            (λ s. OnlyLooks D.Disk disk s.disk)
            (λ e. OnlyLooks D.Disk disk e.1) }
        // by five device calls, or the first of them up to one that failed
        ensures calls { IsTrue (D.tells disk) → MatchResult result
            (λ s. GoodCalls D.Disk 5 disk s.disk)
            (λ e. (k : ℕ) × (k < 5) × FailedCall D.Disk 0 k disk e.1) }
    {
        let from = disk.faults();
        let Ok(outline) = synced_outline(&mut disk) else {
            let fault = fault_since(&disk, from);
            return Err((fault, disk));
        };
        Ok(Store {
            disk,
            made: outline.made,
            slots: Slots {
                a: outline.slot(Side::A),
                b: outline.slot(Side::B),
            },
        })
    }

    /// The file has its header. Without it no area is open, and a put does nothing.
    pub fn is_made(&self) -> bool
        ensures value { result ≡ self.now.made }
        ensures images { EachImage D.Disk self.now.disk (IsImageOf D.seen self.now) }
    {
        self.made
    }

    /// The area of this OPEN row after so many inputs is known to be open, so it is in each image.
    pub fn is_stored(&self, place: u64, count: u32) -> bool
        ensures value { result ≡ is_stored place count self.now.slots }
        ensures images { EachImage D.Disk self.now.disk (IsImageOf D.seen self.now) }
    {
        self.slots.has(place, count)
    }

    /// Writes an area of at most 8,388,608 bytes: the snapshot of this OPEN row after so many
    /// inputs. It takes the area that isn't the newest.
    pub fn put(&mut self, place: u64, count: u32, bytes: &[u8]) -> Result<(), DiskFault>
        requires { length bytes.now ≤ MAX_SNAPSHOT }

        // it is one of the areas, synced, and open in each image
        ensures ok { OnOk result (self.old.made ≡ true → self.new.slots
            ≡ with_slot self.old.slots (taken_side self.old.slots) (Open place count)) }
        ensures durable { OnOk result (self.old.made ≡ true
            → EachImage D.Disk self.new.disk (λ image. open_area (taken_side self.old.slots) image
            ≡ Some (area_with place count bytes.now))) }
        ensures unmade { self.old.made ≡ false → IsOk result × (self.new ≡ self.old) }
        ensures works { IsTrue (D.steady self.old.disk)
            → side_start (taken_side self.old.slots) + 16 + length bytes.now
            ≤ D.room self.old.disk
            → IsOk result }

        // only where the disk failed in this call; then the gate isn't open
        ensures cause { IfErr result
            (IsFaultOfDisk (D.faults self.old.disk) (D.faults self.new.disk)) }
        ensures faults { OnOk result (D.faults self.new.disk ≡ D.faults self.old.disk) }
        ensures err { OnErr result
            ((self.new.slots ≡ with_slot self.old.slots (taken_side self.old.slots) Closed)
            ⊎ (self.new.slots ≡ with_slot self.old.slots (taken_side self.old.slots) Unsure)) }

        // the list of areas: the new one, the old one or none in the place of the one taken
        ensures taken { self.old.made ≡ true → IsTrue (D.tells self.old.disk)
            → MatchResult result
            (λ _. store_area D.seen self.new (taken_side self.old.slots)
            ≡ Some (area_with place count bytes.now))
            (λ _. (store_area D.seen self.new (taken_side self.old.slots)
            ≡ store_area D.seen self.old (taken_side self.old.slots))
            ⊎ (store_area D.seen self.new (taken_side self.old.slots) ≡ None)
            ⊎ (store_area D.seen self.new (taken_side self.old.slots)
            ≡ Some (area_with place count bytes.now))) }
        ensures beside { IsTrue (D.tells self.old.disk)
            → store_area D.seen self.new (opposite_side (taken_side self.old.slots))
            ≡ store_area D.seen self.old (opposite_side (taken_side self.old.slots)) }

        // what a stop may leave meanwhile, and after it
        ensures crash { self.old.made ≡ true → IsTrue (D.tells self.old.disk)
            → LeavesOnly D.Disk self.old.disk self.new.disk
            (IsPutImage D.seen self.old
            (area_with place count bytes.now)) }
        ensures images { EachImage D.Disk self.new.disk (IsImageOf D.seen self.new) }

        ensures reach { D.reach self.new.disk ≤ max (D.reach self.old.disk)
            (side_start (taken_side self.old.slots) + 16 + length bytes.now) }
        // by six or seven device calls, or the first of them up to one that failed
        ensures calls { self.old.made ≡ true → IsTrue (D.tells self.old.disk)
            → MakesCalls D.Disk (side_start (taken_side self.old.slots) + 16 + length bytes.now)
            (closing_calls (slot_of self.old.slots (taken_side self.old.slots)) + 5)
            result self.old.disk self.new.disk }
        ensures kept { SameDisk D.Disk self.old.disk self.new.disk
            × (self.new.made ≡ self.old.made) }
    {
        if !self.made {
            return Ok(());
        }
        let from = self.disk.faults();
        let Ok(()) = replace(&mut self.disk, &mut self.slots, place, count, bytes) else {
            return Err(fault_since(&self.disk, from));
        };
        Ok(())
    }

    /// The open area of this OPEN row with the greatest count that isn't above `most`, and area A
    /// where both have it; none where there is none.
    pub fn newest(
        &mut self,
        alloc: Global,
        place: u64,
        most: u32,
    ) -> Result<Option<Area>, NewestFault>
        ensures ok { IfOk result (λ area. IsTrue (D.tells self.old.disk)
            → area ≡ area_given (newest_area place most (D.seen self.old.disk))) }
        ensures found { IfOk result (λ area. IsTrue (D.tells self.old.disk)
            → IfSome area (IsGiven D.seen self.old place most)) }
        ensures unmade { self.old.made ≡ false → result ≡ Ok None }
        ensures works { IsTrue (D.steady self.old.disk)
            → IfErr result (λ e. e ≡ NewestFault.NoMemory) }

        // a disk fault only where the disk failed in this call; want of memory at any place
        ensures cause { IfErr result
            (HasNewestCause (D.faults self.old.disk) (D.faults self.new.disk)) }
        ensures faults { IfOk result (λ _. D.faults self.new.disk ≡ D.faults self.old.disk) }

        ensures areas { (side : Side) → IsTrue (D.tells self.old.disk)
            → store_area D.seen self.new side ≡ store_area D.seen self.old side }
        ensures images { EachImage D.Disk self.new.disk (IsImageOf D.seen self.new) }
        ensures kept { OnlyLooks D.Disk self.old.disk self.new.disk }
        ensures slots { (self.new.made ≡ self.old.made) × (self.new.slots ≡ self.old.slots) }
    {
        if !self.made {
            return Ok(None);
        }
        let area = find(alloc, &mut self.disk, place, most)?;
        Ok(area)
    }

    /// Its disk.
    pub fn into_disk(self) -> D
        ensures value { result ≡ self.disk }
        ensures images { EachImage D.Disk self.disk (IsImageOf D.seen self) }
    {
        let Store {
            disk,
            made: _,
            slots: _,
        } = self;
        disk
    }
}
