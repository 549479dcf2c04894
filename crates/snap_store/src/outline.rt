//! What stands in a file: its header, its gates, and how its areas begin (own).

ghost use Rattle.std.specs.Prelude.{◌≡◌, ◌<◌, ◌≤◌, ◌^◌, ◌&&◌, IsTrue, IsOk, IfOk, OnOk, List, ℕ};
ghost use Rattle.std.specs.Prelude.{length, false, option_map, IfSome};
ghost use Rattle.disk_model.specs.Work.{OnlyLooks, MakesCalls};
ghost use Rattle.disk_model.specs.Disk.{CountsErrors, ReadsFile, Only};
ghost use Rattle.snap_store.specs.File.{has_header, gate_byte, area_head, is_whole, is_open_area};
ghost use Rattle.snap_store.specs.File.{newest_area, area_on_side, is_wanted_area};
ghost use Rattle.snap_store.specs.Outline.{outline_of};
ghost use Rattle.snap_store.specs.Slots.{slot_in};
ghost use Rattle.snap_store.specs.declared.side.Side.TheVariants.{A, B};
ghost use Rattle.snap_store.specs.declared.slot.Slot.TheVariants.{Closed};

use crate::side::{GATE_A, GATE_B, Side};
use crate::slot::Slot;
use byteorder::{BigEndian, ByteOrder};
use disk_model::{Disk, Failed};

/// The bytes with which a snapshot file begins.
pub const HEADER: [u8; 8] = [0x53, 0x54, 0x48, 0x53, 0, 0, 0, 1];

/// A file with its header has at least so many bytes.
pub const PAGE: usize = 4096;

/// The most bytes of a snapshot.
pub const MAX_SNAPSHOT: u32 = 8_388_608;

/// The numbers with which an area starts.
#[derive(Clone, Copy)]
pub struct Head {
    pub place: u64,
    pub count: u32,
    pub length: u32,
}

/// A file, but for the bytes of its snapshots.
#[derive(Clone, Copy)]
pub struct Outline {
    pub made: bool,
    pub size: u64,
    pub gate_a: u8,
    pub gate_b: u8,
    pub a: Head,
    pub b: Head,
}

// How an area begins.
fn read_head<D: Disk>(disk: &mut D, side: Side) -> Result<Head, Failed>
    ensures ok { IfOk result (λ head. IsTrue (D.tells disk.old)
        → head ≡ area_head side (D.seen disk.old)) }
    ensures works { IsTrue (D.steady disk.old) → IsOk result × IsTrue (D.steady disk.new) }
    ensures cause { CountsErrors result (D.faults disk.old) (D.faults disk.new) }
    ensures seen { OnOk result (IsTrue (D.tells disk.old) → D.seen disk.new ≡ D.seen disk.old) }
    ensures kept { OnlyLooks D.Disk disk.old disk.new }
    ensures calls { IsTrue (D.tells disk.old)
        → MakesCalls D.Disk 0 1 result disk.old disk.new }
{
    let mut bytes = [0; 16];
    disk.read_at(side.start(), &mut bytes)?;
    Ok(Head {
        place: BigEndian::read_u64(&bytes),
        count: BigEndian::read_u32(&bytes[8..]),
        length: BigEndian::read_u32(&bytes[12..]),
    })
}

// The file begins with the header's bytes; these are its first ones.
fn is_header(size: u64, bytes: &[u8]) -> bool
    requires { length bytes.now ≡ 12 }
    ensures { (file : List ℕ) → length file ≡ size → ReadsFile file 0 bytes.now
        → result ≡ has_header file }
{
    size >= PAGE as u64 && bytes.starts_with(&HEADER)
}

/// What stands in the file. Four device calls.
pub fn outline_in<D: Disk>(disk: &mut D) -> Result<Outline, Failed>
    ensures ok { IfOk result (λ l. IsTrue (D.tells disk.old)
        → l ≡ outline_of (D.seen disk.old)) }
    ensures works { IsTrue (D.steady disk.old) → IsOk result × IsTrue (D.steady disk.new) }
    ensures cause { CountsErrors result (D.faults disk.old) (D.faults disk.new) }
    ensures seen { OnOk result (IsTrue (D.tells disk.old) → D.seen disk.new ≡ D.seen disk.old) }
    ensures kept { OnlyLooks D.Disk disk.old disk.new }
    ensures calls { IsTrue (D.tells disk.old)
        → MakesCalls D.Disk 0 4 result disk.old disk.new }
{
    let size = disk.size()?;
    let mut bytes = [0; 12];
    disk.read_at(0, &mut bytes)?;
    let a = read_head(disk, Side::A)?;
    let b = read_head(disk, Side::B)?;
    Ok(Outline {
        made: is_header(size, &bytes),
        size,
        gate_a: bytes[GATE_A as usize],
        gate_b: bytes[GATE_B as usize],
        a,
        b,
    })
}

/// The same after a sync, so that nothing is pending. Five calls of the disk.
pub fn synced_outline<D: Disk>(disk: &mut D) -> Result<Outline, Failed>
    ensures ok { IfOk result (λ l. IsTrue (D.tells disk.old)
        → (l ≡ outline_of (D.seen disk.old)) × Only (D.seen disk.old) (D.may_leave disk.new)) }
    ensures works { IsTrue (D.steady disk.old) → IsOk result }
    ensures cause { CountsErrors result (D.faults disk.old) (D.faults disk.new) }
    ensures seen { OnOk result (IsTrue (D.tells disk.old) → D.seen disk.new ≡ D.seen disk.old) }
    ensures kept { OnlyLooks D.Disk disk.old disk.new }
    ensures calls { IsTrue (D.tells disk.old)
        → MakesCalls D.Disk 0 5 result disk.old disk.new }
{
    disk.sync()?;
    let outline = outline_in(disk)?;
    Ok(outline)
}

impl Outline {
    /// The gate of an area.
    fn gate(&self, side: Side) -> u8
        ensures { (file : List ℕ) → self.now ≡ outline_of file
            → result ≡ gate_byte side file }
    {
        match side {
            Side::A => self.gate_a,
            Side::B => self.gate_b,
        }
    }

    /// How an area begins.
    pub fn head(&self, side: Side) -> Head
        ensures { (file : List ℕ) → self.now ≡ outline_of file
            → result ≡ area_head side file }
    {
        match side {
            Side::A => self.a,
            Side::B => self.b,
        }
    }

    // It isn't too long, and ends inside the file.
    fn is_whole(&self, side: Side) -> bool
        ensures { (file : List ℕ) → self.now ≡ outline_of file
            → result ≡ is_whole side file }
    {
        let length = self.head(side).length;
        length <= MAX_SNAPSHOT
            && u128::from(side.start()) + 16 + u128::from(length) <= self.size.into()
    }

    // It is open.
    fn is_open(&self, side: Side) -> bool
        ensures { (file : List ℕ) → self.now ≡ outline_of file
            → result ≡ is_open_area side file }
    {
        self.made && self.gate(side) == 1 && self.is_whole(side)
    }

    /// What is known of its gate, where nothing is pending.
    pub fn slot(&self, side: Side) -> Slot
        ensures value { (file : List ℕ) → self.now ≡ outline_of file
            → result ≡ slot_in side file }
        ensures unmade { self.now.made ≡ false → result ≡ Closed }
    {
        if !self.made || self.gate(side) == 0 {
            return Slot::Closed;
        }
        if !self.is_open(side) {
            return Slot::Unsure;
        }
        let head = self.head(side);
        Slot::Open {
            place: head.place,
            count: head.count,
        }
    }

    // It is open, of this OPEN row, and its count isn't above `most`.
    fn is_wanted(&self, side: Side, place: u64, most: u32) -> bool
        ensures { (file : List ℕ) → self.now ≡ outline_of file
            → result
            ≡ (is_open_area side file && is_wanted_area place most (area_on_side side file)) }
    {
        if !self.is_open(side) {
            return false;
        }
        let head = self.head(side);
        head.place == place && head.count <= most
    }

    /// The newest open area of this OPEN row with a count of at most `most`.
    pub fn newest(&self, place: u64, most: u32) -> Option<Side>
        ensures value { (file : List ℕ) → self.now ≡ outline_of file
            → option_map (λ side. area_on_side side file) result ≡ newest_area place most file }
        ensures whole { (file : List ℕ) → self.now ≡ outline_of file
            → IfSome result (λ side. IsTrue (is_whole side file)) }
    {
        let a = self.is_wanted(Side::A, place, most);
        let b = self.is_wanted(Side::B, place, most);
        match (a, b) {
            (false, false) => None,
            (true, false) => Some(Side::A),
            (false, true) => Some(Side::B),
            (true, true) => {
                if self.a.count < self.b.count {
                    Some(Side::B)
                } else {
                    Some(Side::A)
                }
            }
        }
    }
}
