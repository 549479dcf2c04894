//! An outside in memory, with the calls that are to fail.
ghost use Rattle.std.specs.Prelude.{◌≡◌, Some, None, IfSome, IfNone, IsSomeAnd, OnOk, OnErr};
ghost use Rattle.std.specs.Prelude.{is_some, true, false, ℕ, List, option_map};
ghost use Rattle.std.specs.BTreeMap.{get_by_text};
ghost use Rattle.host_top.specs.Files.{Told, told_of_all, IsLentFrom, IsLent, returned, RisesWith};
ghost use Rattle.host_top.specs.Files.{told_at, is_out, AreBelow};
ghost use Rattle.host_top.specs.MemoryOutside.{disk_in, loan_in};
ghost use Rattle.std.specs.Map.{update};
ghost use Rattle.std.specs.Str.{bytes_eq};

use crate::door_call::{DoorCall, DoorCalls};
use crate::loan::Loan;
use crate::memory_door::MemoryDoor;
use crate::outside::{Fetch, Outside};
use disk_model::{Disk, Failed, MemDisk};
use host_serve::Worked;
use std::alloc::{AllocError, Global};
use std::collections::BTreeMap;

/// The most bytes of a file that a load gives.
const MOST_OF_FILE: usize = 67_108_865;

/// What stands under the name of a disk: the disk while it isn't lent, and its last loan.
#[derive(Drop)]
pub struct Shelf {
    disk: Option<MemDisk>,
    loan: Option<Loan>,
}

impl Shelf {
    /// Lends its disk with this label, or an empty one.
    fn lend(&mut self, alloc: Global, label: u64) -> MemDisk
        ensures loan { self.new ≡ record {
          disk = None;
          loan = Some (record {
            label = ⟦<MemDisk as Disk>⟧.label result;
            from = ⟦<MemDisk as Disk>⟧.faults result;
            to = None;
          });
        } }
        ensures given { IsLentFrom ⟦<MemDisk as Disk>⟧ (told_of_all self.old.disk) result }
        ensures label { ⟦<MemDisk as Disk>⟧.label result ≡ label }
    {
        let mut disk = match self.disk.take() {
            Some(disk) => disk,
            None => MemDisk::new(alloc),
        };
        disk.set_label(label);
        self.loan = Some(Loan {
            label,
            from: disk.faults(),
            to: None,
        });
        disk
    }

    /// Takes its disk back. The count rises where the disk's own did.
    fn take_back(&mut self, disk: MemDisk, faults: &mut u64)
        requires { IsLent self.old.loan (⟦<MemDisk as Disk>⟧.label disk) }
        ensures value { self.new ≡ record {
          disk = Some disk;
          loan = returned (⟦<MemDisk as Disk>⟧.faults disk) self.old.loan;
        } }
        ensures count { IsSomeAnd self.old.loan (λ loan. RisesWith loan.from
            (⟦<MemDisk as Disk>⟧.faults disk) faults.old faults.new) }
    {
        match &mut self.loan {
            Some(loan) => loan.end(disk.faults(), faults),
            None => unreachable!("its disk is lent"),
        }
        self.disk = Some(disk);
    }
}

/// The disk of that name is lent.
fn is_lent(shelves: &BTreeMap<String, Shelf>, name: &str) -> bool
    ensures { result ≡ is_out (loan_in shelves.now name.now) }
{
    match shelves.get(name) {
        Some(shelf) => match &shelf.loan {
            Some(loan) => loan.is_out(),
            None => false,
        },
        None => false,
    }
}

/// A place for the disk of that name.
fn make_shelf(
    alloc: Global,
    shelves: &mut BTreeMap<String, Shelf>,
    name: &str,
) -> Result<(), AllocError>
    ensures kept { (other : List ℕ) → (disk_in shelves.new other ≡ disk_in shelves.old other)
        × (loan_in shelves.new other ≡ loan_in shelves.old other) }
    ensures there { OnOk result (is_some (get_by_text shelves.new name.now) ≡ true) }
{
    if shelves.get(name).is_some() {
        return Ok(());
    }
    let name = String::from_str(alloc, name)?;
    shelves.insert(
        name,
        Shelf {
            disk: None,
            loan: None,
        },
    )?;
    Ok(())
}

/// Lends the disk of that name with this label, unless it has no place.
fn lend(
    alloc: Global,
    label: u64,
    shelves: &mut BTreeMap<String, Shelf>,
    name: &str,
) -> Option<MemDisk>
    ensures disks { IfSome result (λ disk. (other : List ℕ)
        → disk_in shelves.new other
        ≡ told_at (disk_in shelves.old) name.now Told.Missing other) }
    ensures loans { IfSome result (λ disk. (other : List ℕ)
        → loan_in shelves.new other ≡ update bytes_eq (loan_in shelves.old) name.now
        (Some (record {
          label = ⟦<MemDisk as Disk>⟧.label disk;
          from = ⟦<MemDisk as Disk>⟧.faults disk;
          to = None;
        })) other) }
    ensures given { IfSome result (λ disk.
        IsLentFrom ⟦<MemDisk as Disk>⟧ (disk_in shelves.old name.now) disk) }
    ensures label { IfSome result (λ disk. ⟦<MemDisk as Disk>⟧.label disk ≡ label) }
    ensures none { IfNone result (is_some (get_by_text shelves.old name.now) ≡ false) }
{
    match shelves.get_mut(name) {
        Some(shelf) => Some(shelf.lend(alloc, label)),
        None => None,
    }
}

/// Files and disks by their names, and doors that are shut. Loads are counted from 0, and so are
/// the calls for a disk and those for a door; those that are listed fail.
#[derive(Drop)]
pub struct MemoryOutside {
    files: BTreeMap<String, Vec<u8>>,
    shelves: BTreeMap<String, Shelf>,
    loads: u64,
    failing_loads: Vec<u64>,
    faults: u64,
    calls: u64,
    failing_loans: Vec<u64>,
    disk_faults: u64,
    door_calls: DoorCalls,
    failing_doors: Vec<u64>,
    door_faults: u64,
    shut: u64,
    ghost below: { AreBelow (loan_in shelves) calls },
}

impl MemoryOutside {
    /// These files and no disk, and nothing has happened yet.
    pub fn new(
        alloc: Global,
        files: BTreeMap<String, Vec<u8>>,
        failing_loads: Vec<u64>,
        failing_loans: Vec<u64>,
        failing_doors: Vec<u64>,
    ) -> MemoryOutside
        ensures value { ⟦<MemoryOutside as Outside>⟧.outside result ≡ record {
          file = λ name. told_of_all (option_map (λ bytes. bytes.items) (get_by_text files name));
          disk = λ name. Told.Missing;
          loan = λ name. None;
          faults = 0;
          disk_faults = 0;
          door_faults = 0;
          shut = 0;
          door_calls = record { count = 0; last = None };
        } }
        ensures loads { ⟦<MemoryOutside as Outside>⟧.failing_loads result
            ≡ Some (record { next = 0; listed = failing_loads.items }) }
        ensures loans { ⟦<MemoryOutside as Outside>⟧.failing_loans result
            ≡ Some (record { next = 0; listed = failing_loans.items }) }
        ensures doors { ⟦<MemoryOutside as Outside>⟧.failing_doors result
            ≡ Some (record { next = 0; listed = failing_doors.items }) }
    {
        MemoryOutside {
            files,
            shelves: BTreeMap::new(alloc),
            loads: 0,
            failing_loads,
            faults: 0,
            calls: 0,
            failing_loans,
            disk_faults: 0,
            door_calls: DoorCalls::none(),
            failing_doors,
            door_faults: 0,
            shut: 0,
        }
    }
}

impl Outside for MemoryOutside {
    ghost use Rattle.host_top.specs.Files.{Closes, KeepsDisks, KeepsFiles};
    ghost use Rattle.host_top.specs.MemoryState.{memory_state, loads_due, loans_due, doors_due};

    type Disk = MemDisk;

    type Door = MemoryDoor;

    ghost outside = { memory_state };

    ghost failing_loads = { loads_due };

    ghost failing_loans = { loans_due };

    ghost failing_doors = { doors_due };

    fn load(&mut self, alloc: Global, name: &str) -> Result<Vec<u8>, Fetch> {
        let call = self.loads;
        self.loads = call.saturating_add(1);
        let fails = self.failing_loads.contains(&call);
        match self.files.get(name) {
            Some(bytes) if !fails => {
                let most = bytes.len().min(MOST_OF_FILE);
                match bytes[..most].to_vec(alloc) {
                    Ok(bytes) => Ok(bytes),
                    Err(_) => Err(Fetch::NoMemory),
                }
            }
            _ => {
                self.faults = self.faults.saturating_add(1);
                Err(Fetch::Failed)
            }
        }
    }

    fn disk(&mut self, alloc: Global, name: &str) -> Result<MemDisk, Fetch> {
        let call = self.calls;
        self.calls = call.saturating_add(1);
        if is_lent(&self.shelves, name) || self.failing_loans.contains(&call) {
            self.disk_faults = self.disk_faults.saturating_add(1);
            return Err(Fetch::Failed);
        }
        if call == u64::MAX {
            return Err(Fetch::NoMemory);
        }
        let Ok(()) = make_shelf(alloc, &mut self.shelves, name) else {
            return Err(Fetch::NoMemory);
        };
        match lend(alloc, call, &mut self.shelves, name) {
            Some(disk) => Ok(disk),
            None => unreachable!("it has a place"),
        }
    }

    fn put_back(&mut self, name: &str, disk: MemDisk) {
        match self.shelves.get_mut(name) {
            Some(shelf) => shelf.take_back(disk, &mut self.disk_faults),
            None => unreachable!("its disk is lent"),
        }
    }

    fn door(&mut self, port: u16, links: u32) -> Result<MemoryDoor, Failed> {
        let call = self.door_calls.count;
        self.door_calls.add(DoorCall { port, links });
        if self.failing_doors.contains(&call) {
            self.door_faults = self.door_faults.saturating_add(1);
            return Err(Failed);
        }
        Ok(MemoryDoor::new())
    }

    fn only_look(&mut self) {}

    fn may_write(&mut self) {}

    fn progress(&mut self, _left: usize, _all: usize) {}

    fn closed(&mut self, how: Worked<MemoryDoor>)
        ensures value { Closes how (memory_state self.old) (memory_state self.new) }
        ensures others { (loads_due self.new ≡ loads_due self.old)
            × (loans_due self.new ≡ loans_due self.old)
            × (doors_due self.new ≡ doors_due self.old) }
        ensures files { KeepsFiles (memory_state self.old) (memory_state self.new) }
        ensures disks { KeepsDisks (memory_state self.old) (memory_state self.new) }
    {
        match how {
            Worked::Shut(_) => self.shut = self.shut.saturating_add(1),
            Worked::DoorFault(_) => self.door_faults = self.door_faults.saturating_add(1),
        }
    }
}

// For whoever makes such an outside, and looks at its disks afterwards.
impl MemoryOutside {
    ghost use Rattle.host_top.specs.Files.{KeepsDisks, KeepsDoors, KeepsFiles, StandsThen};

    /// Puts a disk under a name, in the place of the one that stands there. Where memory runs out
    /// no disk changes, and this one is gone.
    pub fn hold(&mut self, alloc: Global, name: &str, disk: MemDisk) -> Result<(), AllocError>
        ensures ok { OnOk result (StandsThen name.now (Told.There disk)
            (⟦<MemoryOutside as Outside>⟧.outside self.old)
            (⟦<MemoryOutside as Outside>⟧.outside self.new)) }
        ensures err { OnErr result (KeepsDisks
            (⟦<MemoryOutside as Outside>⟧.outside self.old)
            (⟦<MemoryOutside as Outside>⟧.outside self.new)) }
        ensures files { KeepsFiles (⟦<MemoryOutside as Outside>⟧.outside self.old)
            (⟦<MemoryOutside as Outside>⟧.outside self.new) }
        ensures doors { KeepsDoors (⟦<MemoryOutside as Outside>⟧.outside self.old)
            (⟦<MemoryOutside as Outside>⟧.outside self.new) }
        ensures others { (⟦<MemoryOutside as Outside>⟧.failing_loads self.new
            ≡ ⟦<MemoryOutside as Outside>⟧.failing_loads self.old)
            × (⟦<MemoryOutside as Outside>⟧.failing_loans self.new
            ≡ ⟦<MemoryOutside as Outside>⟧.failing_loans self.old)
            × (⟦<MemoryOutside as Outside>⟧.failing_doors self.new
            ≡ ⟦<MemoryOutside as Outside>⟧.failing_doors self.old) }
    {
        make_shelf(alloc, &mut self.shelves, name)?;
        match self.shelves.get_mut(name) {
            Some(shelf) => shelf.disk = Some(disk),
            None => unreachable!("it has a place"),
        }
        Ok(())
    }

    /// Takes the disk under a name, unless it is lent or there is none; then no disk changes.
    pub fn release(&mut self, name: &str) -> Option<MemDisk>
        ensures value { told_of_all result
            ≡ (⟦<MemoryOutside as Outside>⟧.outside self.old).disk name.now }
        ensures ok { IfSome result (λ disk. StandsThen name.now Told.Missing
            (⟦<MemoryOutside as Outside>⟧.outside self.old)
            (⟦<MemoryOutside as Outside>⟧.outside self.new)) }
        ensures none { IfNone result (KeepsDisks
            (⟦<MemoryOutside as Outside>⟧.outside self.old)
            (⟦<MemoryOutside as Outside>⟧.outside self.new)) }
        ensures files { KeepsFiles (⟦<MemoryOutside as Outside>⟧.outside self.old)
            (⟦<MemoryOutside as Outside>⟧.outside self.new) }
        ensures doors { KeepsDoors (⟦<MemoryOutside as Outside>⟧.outside self.old)
            (⟦<MemoryOutside as Outside>⟧.outside self.new) }
        ensures others { (⟦<MemoryOutside as Outside>⟧.failing_loads self.new
            ≡ ⟦<MemoryOutside as Outside>⟧.failing_loads self.old)
            × (⟦<MemoryOutside as Outside>⟧.failing_loans self.new
            ≡ ⟦<MemoryOutside as Outside>⟧.failing_loans self.old)
            × (⟦<MemoryOutside as Outside>⟧.failing_doors self.new
            ≡ ⟦<MemoryOutside as Outside>⟧.failing_doors self.old) }
    {
        match self.shelves.get_mut(name) {
            Some(shelf) => shelf.disk.take(),
            None => None,
        }
    }
}
