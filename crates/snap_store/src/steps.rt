//! The device calls of a put (own).

ghost use Rattle.std.specs.Prelude.{◌≡◌, ◌⊎◌, ◌+◌, ◌≤◌, ℕ, List, OnOk, OnErr, IfErr, IsTrue};
ghost use Rattle.std.specs.Prelude.{Option, Some, None, length};
ghost use Rattle.disk_model.specs.Work.{EachImage, MakesCalls, Ran, Triple};
ghost use Rattle.snap_store.specs.File.{Stored, area_with, gate_of, side_start, head_bytes};
ghost use Rattle.snap_store.specs.Slots.{slot_of, with_slot, taken_side, opposite_side};
ghost use Rattle.snap_store.specs.Slots.{closing_calls};
ghost use Rattle.snap_store.specs.Images.{IsLaid, IsLaidTaken, Spares, loosened, DuringPut, IsLeft};
ghost use Rattle.snap_store.specs.declared.slot.Slot.{Slot};
ghost use Rattle.snap_store.specs.declared.slot.Slot.TheVariants.{Closed, Open, Unsure};
ghost use Rattle.snap_store.specs.declared.outline.TheConstants.{MAX_SNAPSHOT};

use crate::side::Side;
use crate::slot::{Slot, Slots};
use byteorder::{BigEndian, ByteOrder};
use disk_model::{Disk, Failed, write_through};

// Closes a gate: 0 is written where it isn't known to be 0, and a sync follows. At most two calls.
fn close_gate<D: Disk>(disk: &mut D, side: Side, slot: Slot) -> Result<(), Failed>
    ensures triple { (area beside_area : Option Stored) (beside : Slot)
        → Triple D.Disk result disk.old disk.new (IsLaid side slot area beside beside_area)
        (IsLaid side (loosened slot) area beside beside_area)
        (IsLaid side Closed area beside beside_area) }
    ensures ran { Ran D.Disk (gate_of side + 1) result disk.old disk.new }
    ensures calls { IsTrue (D.tells disk.old)
        → MakesCalls D.Disk (gate_of side + 1) (closing_calls slot) result disk.old disk.new }
{
    if slot.is_closed() {
        disk.sync()?;
        return Ok(());
    }
    write_through(disk, side.gate(), &[0])
}

// Writes an area behind a closed gate: its first 16 bytes, then the others, and a sync.
fn fill<D: Disk>(
    disk: &mut D,
    side: Side,
    place: u64,
    count: u32,
    bytes: &[u8],
) -> Result<(), Failed>
    requires { length bytes.now ≤ MAX_SNAPSHOT }
    ensures triple { (area beside_area : Option Stored) (beside : Slot) → Spares side beside
        → Triple D.Disk result disk.old disk.new
        (IsLaid side Closed area beside beside_area) (IsLaid side Closed area beside beside_area)
        (IsLaid side Unsure (Some (area_with place count bytes.now)) beside beside_area) }
    ensures ran { Ran D.Disk (side_start side + 16 + length bytes.now) result disk.old disk.new }
    ensures calls { IsTrue (D.tells disk.old)
        → MakesCalls D.Disk (side_start side + 16 + length bytes.now) 3 result disk.old disk.new }
{
    disk.write_at(side.start(), &head_bytes(place, count, bytes.len() as u32))?;
    write_through(disk, side.start() + 16, bytes)
}

// Opens the gate of an area that is synced, and syncs it.
fn open_gate<D: Disk>(disk: &mut D, side: Side) -> Result<(), Failed>
    ensures triple { (area : Stored) (beside_area : Option Stored) (beside : Slot)
        → Triple D.Disk result disk.old disk.new (IsLaid side Unsure (Some area) beside beside_area)
        (IsLaid side Unsure (Some area) beside beside_area)
        (IsLaid side (Open area.place area.count) (Some area) beside beside_area) }
    ensures ran { Ran D.Disk (gate_of side + 1) result disk.old disk.new }
    ensures calls { IsTrue (D.tells disk.old)
        → MakesCalls D.Disk (gate_of side + 1) 2 result disk.old disk.new }
{
    write_through(disk, side.gate(), &[1])
}

/// The sixteen bytes with which an area starts.
pub fn head_bytes(place: u64, count: u32, length: u32) -> [u8; 16]
    ensures { result ≡ head_bytes place count length }
{
    let mut bytes = [0; 16];
    BigEndian::write_u64(&mut bytes, place);
    BigEndian::write_u32(&mut bytes[8..], count);
    BigEndian::write_u32(&mut bytes[12..], length);
    bytes
}

// Writes an area here, in at most seven device calls. Where one fails, what is known of the gate
// goes by the step that it failed in.
fn write_area<D: Disk>(
    disk: &mut D,
    side: Side,
    slot: Slot,
    place: u64,
    count: u32,
    bytes: &[u8],
) -> Result<(), Slot>
    requires { length bytes.now ≤ MAX_SNAPSHOT }
    ensures triple { (area beside_area : Option Stored) (beside : Slot) → Spares side beside
        → Triple D.Disk result disk.old disk.new (IsLaid side slot area beside beside_area)
        (DuringPut side slot area (area_with place count bytes.now) beside beside_area)
        (IsLaid side (Open place count) (Some (area_with place count bytes.now))
        beside beside_area) }
    ensures err { IfErr result (λ now. (area beside_area : Option Stored) (beside : Slot)
        → Spares side beside
        → EachImage D.Disk disk.old (IsLaid side slot area beside beside_area)
        → (left : Option Stored) × IsLeft slot area (area_with place count bytes.now) now left
        × EachImage D.Disk disk.new (IsLaid side now left beside beside_area)) }
    ensures gate { IfErr result (λ now. (now ≡ Closed) ⊎ (now ≡ Unsure)) }
    ensures ran { Ran D.Disk (side_start side + 16 + length bytes.now) result disk.old disk.new }
    ensures calls { IsTrue (D.tells disk.old)
        → MakesCalls D.Disk (side_start side + 16 + length bytes.now)
        (closing_calls slot + 5) result disk.old disk.new }
{
    let Ok(()) = close_gate(disk, side, slot) else {
        return Err(slot.loosened());
    };
    let Ok(()) = fill(disk, side, place, count, bytes) else {
        return Err(Slot::Closed);
    };
    let Ok(()) = open_gate(disk, side) else {
        return Err(Slot::Unsure);
    };
    Ok(())
}

/// Puts an area in place of the one that isn't the newest, in at most seven device calls.
pub fn replace<D: Disk>(
    disk: &mut D,
    slots: &mut Slots,
    place: u64,
    count: u32,
    bytes: &[u8],
) -> Result<(), Failed>
    requires { length bytes.now ≤ MAX_SNAPSHOT }
    ensures ok { OnOk result (slots.new
        ≡ with_slot slots.old (taken_side slots.old) (Open place count)) }
    ensures triple { (area beside_area : Option Stored)
        → Triple D.Disk result disk.old disk.new
        (IsLaidTaken slots.old (slot_of slots.old (taken_side slots.old)) area beside_area)
        (DuringPut (taken_side slots.old) (slot_of slots.old (taken_side slots.old)) area
        (area_with place count bytes.now)
        (slot_of slots.old (opposite_side (taken_side slots.old))) beside_area)
        (IsLaidTaken slots.old (Open place count) (Some (area_with place count bytes.now))
        beside_area) }
    ensures err { OnErr result ((now : Slot)
        × (slots.new ≡ with_slot slots.old (taken_side slots.old) now)
        × ((area beside_area : Option Stored)
        → EachImage D.Disk disk.old
        (IsLaidTaken slots.old (slot_of slots.old (taken_side slots.old)) area beside_area)
        → (left : Option Stored)
        × IsLeft (slot_of slots.old (taken_side slots.old)) area
        (area_with place count bytes.now) now left
        × EachImage D.Disk disk.new (IsLaidTaken slots.old now left beside_area))) }
    ensures gate { OnErr result
        ((slots.new ≡ with_slot slots.old (taken_side slots.old) Closed)
        ⊎ (slots.new ≡ with_slot slots.old (taken_side slots.old) Unsure)) }
    ensures ran { Ran D.Disk
        (side_start (taken_side slots.old) + 16 + length bytes.now) result disk.old disk.new }
    ensures calls { IsTrue (D.tells disk.old)
        → MakesCalls D.Disk (side_start (taken_side slots.old) + 16 + length bytes.now)
        (closing_calls (slot_of slots.old (taken_side slots.old)) + 5) result disk.old disk.new }
{
    let side = slots.taken();
    let slot = slots.of(side);
    match write_area(disk, side, slot, place, count, bytes) {
        Ok(()) => {
            slots.set(side, Slot::Open { place, count });
            Ok(())
        }
        Err(now) => {
            slots.set(side, now);
            Err(Failed)
        }
    }
}
