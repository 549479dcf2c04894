//! A disk in memory, for tests and models: it fails where it is told to, and may stop at any call.

ghost use Rattle.std.specs.Prelude.{◌≡◌, ◌+◌, ◌≤◌, ◌<◌, ◌^◌, ◌++◌, [], ◌∷◌, length, Bool, ◌==◌};
ghost use Rattle.std.specs.Prelude.{if◌then◌else◌, is_ok, IfOk};
ghost use Rattle.std.specs.List.{list_any};
ghost use Rattle.disk_model.specs.DiskState.{IsDiskImage, IsWell, settled};
ghost use Rattle.disk_model.specs.Calls.{state_after, LeftSince};

use crate::call::Call;
use crate::landed::landed;
use crate::note::{note_look, note_sync, put, read_into};
use crate::stop::draw_image;
use crate::{Disk, Failed};
use std::alloc::{AllocError, Global};

pub const ROOM: u64 = 1 << 40;

/// A disk in memory of at most 2^40 bytes. It keeps all calls, so that a stop may leave all that a
/// disk may. A call that finds no memory fails.
#[derive(Drop)]
pub struct MemDisk {
    alloc: Global,
    start: Vec<u8>,
    calls: Vec<Call>,
    failing: Vec<u64>,
    bytes: Vec<u8>,
    synced: Vec<u8>,
    ranges: Vec<(u64, u64)>,
    reach: u128,
    faults: u64,
    label: u64,
    ghost well: { IsWell (state_after start.items calls.items) },
    ghost reads: { bytes.items ≡ (state_after start.items calls.items).seen },
    ghost holds: { synced.items ≡ (state_after start.items calls.items).synced },
    ghost writes: { ranges.items ≡ (state_after start.items calls.items).ranges },
}

impl MemDisk {
    ghost use Rattle.disk_model.specs.Memory.{disk_state_in, calls_in, failing_in, faults_in};
    ghost use Rattle.disk_model.specs.Memory.{reach_in};
    ghost use Rattle.disk_model.specs.Memory.{label_in};

    /// An empty disk of which no call is to fail.
    pub fn new(alloc: Global) -> MemDisk
        ensures value { (disk_state_in result ≡ settled []) × (calls_in result ≡ [])
            × (failing_in result ≡ [])
            × (faults_in result ≡ 0) × (reach_in result ≡ 0) }
        ensures label { label_in result ≡ 0 }
    {
        MemDisk {
            alloc,
            start: Vec::new(alloc),
            calls: Vec::new(alloc),
            failing: Vec::new(alloc),
            bytes: Vec::new(alloc),
            synced: Vec::new(alloc),
            ranges: Vec::new(alloc),
            reach: 0,
            faults: 0,
            label: 0,
        }
    }

    /// The call of this number is to fail. Calls of the disk are counted from 0, but for `faults`,
    /// and for those that found no memory.
    pub fn fail_at(&mut self, call: u64) -> Result<(), AllocError>
        ensures value { failing_in self.new
            ≡ (if is_ok result then failing_in self.old ++ call ∷ [] else failing_in self.old) }
        ensures kept { (calls_in self.new ≡ calls_in self.old)
            × (disk_state_in self.new ≡ disk_state_in self.old)
            × (faults_in self.new ≡ faults_in self.old)
            × (reach_in self.new ≡ reach_in self.old) }
        ensures label { label_in self.new ≡ label_in self.old }
    {
        self.failing.push(call)?;
        Ok(())
    }

    /// From now on its outside knows it by this number.
    pub fn set_label(&mut self, label: u64)
        ensures value { label_in self.new ≡ label }
        ensures kept { (calls_in self.new ≡ calls_in self.old)
            × (failing_in self.new ≡ failing_in self.old)
            × (disk_state_in self.new ≡ disk_state_in self.old)
            × (faults_in self.new ≡ faults_in self.old)
            × (reach_in self.new ≡ reach_in self.old) }
    {
        self.label = label;
    }
}

impl MemDisk {
    ghost use Rattle.disk_model.specs.Memory.{disk_state_in, calls_in, failing_in, faults_in};
    ghost use Rattle.disk_model.specs.Memory.{reach_in};
    ghost use Rattle.disk_model.specs.Memory.{label_in};
    ghost use Rattle.disk_model.specs.Memory.{landed_in};
    ghost use Rattle.disk_model.specs.Drawn.{IsDrawn};

    /// A disk that holds one of the images that a stop at this moment may leave, drawn from a
    /// number by its lowest five bits. Nothing is pending in it, and none of its calls is to fail.
    ///
    /// An odd choice has the greatest size, and in it writes that failed may have landed. Its next
    /// four bits keep, at the places that are 0, 1, 2 and 3 modulo 4, what was written.
    pub fn after_stop(&self, alloc: Global, choice: u64) -> Result<MemDisk, AllocError>
        ensures ok { IfOk result
            (λ d. IsDiskImage (disk_state_in self.now) (disk_state_in d).seen) }
        ensures durable { IfOk result (λ d. disk_state_in d ≡ settled (disk_state_in d).seen) }
        ensures fresh { IfOk result (λ d.
            (calls_in d ≡ []) × (failing_in d ≡ []) × (faults_in d ≡ 0)) }
        ensures anew { IfOk result (λ d. (reach_in d ≡ 0) × (label_in d ≡ label_in self.now)) }
        ensures drawn { IfOk result (λ d.
            IsDrawn (disk_state_in self.now) (landed_in self.now) choice (disk_state_in d).seen) }
    {
        let landed = landed(alloc, &self.start, &self.calls)?;
        let start = draw_image(
            alloc,
            &self.synced,
            &self.bytes,
            &landed,
            &self.ranges,
            choice,
        )?;
        let bytes = start.as_slice().to_vec(alloc)?;
        let synced = start.as_slice().to_vec(alloc)?;
        Ok(MemDisk {
            alloc,
            start,
            calls: Vec::new(alloc),
            failing: Vec::new(alloc),
            bytes,
            synced,
            ranges: Vec::new(alloc),
            reach: 0,
            faults: 0,
            label: self.label,
        })
    }

    // The next call is one that is to fail.
    fn is_failing(&self) -> bool
        ensures { result
            ≡ list_any (λ call. call == length self.now.calls.items) self.now.failing.items }
    {
        self.failing.contains(&(self.calls.len() as u64))
    }
}

impl Disk for MemDisk {
    ghost use Rattle.std.specs.Prelude.{true, false};
    ghost use Rattle.std.specs.Prelude.{List};
    ghost use Rattle.std.proofs.Common.{arith, sym, subst};
    ghost use Rattle.std.proofs.lemmas.List.{take_all};
    ghost use Rattle.disk_model.specs.declared.call.Call.{Call};
    ghost use Rattle.disk_model.specs.Memory.{IsMade};

    ghost tells = { λ _. true };

    ghost steady = { λ _. false };

    ghost fails_at = { λ m t. list_any (λ call. call == t) m.failing.items };

    ghost seen = { λ m. (state_after m.start.items m.calls.items).seen };

    ghost may_leave = { λ m. IsDiskImage (state_after m.start.items m.calls.items) };

    ghost moment = { λ m. length m.calls.items };

    ghost left_since = { λ m. LeftSince m.start.items m.calls.items };

    ghost faults = { λ m. m.faults };

    ghost reach = { λ m. m.reach };

    ghost room = { λ _. 2 ^ 40 };

    ghost label = { λ m. m.label };

    ghost makes = { IsMade };

    fn size(&mut self) -> Result<u64, Failed> {
        let good = !self.is_failing();
        let noted = note_look(&mut self.calls);
        if noted.is_err() || !good {
            self.faults = self.faults.saturating_add(1);
            return Err(Failed);
        }
        Ok(self.bytes.len() as u64)
    }

    fn read_at(&mut self, place: u64, into: &mut [u8]) -> Result<(), Failed> {
        let good = !self.is_failing();
        let noted = note_look(&mut self.calls);
        if noted.is_err() || !good {
            self.faults = self.faults.saturating_add(1);
            return Err(Failed);
        }
        read_into(&self.bytes, place, into);
        Ok(())
    }

    fn write_at(&mut self, place: u64, piece: &[u8]) -> Result<(), Failed> {
        let good = !self.is_failing();
        let end = place as u128 + piece.len() as u128;
        self.reach = self.reach.max(end);
        if end > ROOM as u128 {
            let _ = note_look(&mut self.calls);
            self.faults = self.faults.saturating_add(1);
            return Err(Failed);
        }
        let Ok(()) = put(
            self.alloc,
            &mut self.bytes,
            &mut self.ranges,
            &mut self.calls,
            place,
            piece,
            good,
        ) else {
            self.faults = self.faults.saturating_add(1);
            return Err(Failed);
        };
        if !good {
            self.faults = self.faults.saturating_add(1);
            return Err(Failed);
        }
        Ok(())
    }

    fn sync(&mut self) -> Result<(), Failed> {
        let good = !self.is_failing();
        let Ok(synced) = self.bytes.to_vec(self.alloc) else {
            self.faults = self.faults.saturating_add(1);
            return Err(Failed);
        };
        let Ok(()) = note_sync(&mut self.calls, good) else {
            self.faults = self.faults.saturating_add(1);
            return Err(Failed);
        };
        if !good {
            self.faults = self.faults.saturating_add(1);
            return Err(Failed);
        }
        self.synced = synced;
        self.ranges.clear();
        Ok(())
    }

    fn faults(&self) -> u64 {
        self.faults
    }

    ghost seen_may_stay = { λ m. m.well.stays };

    ghost counts_now = { λ m t c le image. (
      length m.calls.items,
      le,
      Prim.omega arith,
      subst (λ (l : List Call). IsDiskImage (state_after m.start.items l) c)
          (sym (take_all (length m.calls.items) m.calls.items (Prim.omega arith))) image,
    ) };

    ghost only_now = { λ m c since.
        subst (λ (l : List Call). IsDiskImage (state_after m.start.items l) c)
        (take_all since.0 m.calls.items since.1) since.3 };

    ghost size_within = { λ m told. m.well.within };

    ghost room_is_small = { λ m. Prim.omega arith };
}
