//! A disk that fails for good from some call on (own).

ghost use Rattle.std.specs.Prelude.{◌≡◌, max, false};

use disk_model::{Disk, Failed};

/// A disk that makes so many calls of another one. From then on each call fails and leaves all as
/// it was, but for the count of faults and the reach. Where its last call was a write, a stop leaves
/// of that write's range what it leaves of the other disk's: it may be torn.
#[derive(Drop)]
pub struct Dying<D: Disk> {
    disk: D,
    left: u64,
    faults: u64,
    reach: u128,
}

impl<D: Disk> Dying<D> {
    /// The disk, with so many calls left.
    pub fn new(disk: D, left: u64) -> Dying<D>
        ensures value { (result.disk ≡ disk) × (result.left ≡ left) }
        ensures faults { result.faults ≡ D.faults disk }
        ensures reach { result.reach ≡ 0 }
    {
        let faults = disk.faults();
        Dying {
            disk,
            left,
            faults,
            reach: 0,
        }
    }

    /// The disk with the calls that were made of it.
    pub fn into_disk(self) -> D
        ensures { result ≡ self.disk }
    {
        let Dying { disk, .. } = self;
        disk
    }
}

impl<D: Disk> Disk for Dying<D> {
    ghost use Rattle.std.proofs.Common.{rules, arith};
    ghost use Rattle.dying_disk.specs.Calls.{MakesOrFails};

    ghost tells = { λ d. D.tells d.disk };

    ghost steady = { λ _. false };

    ghost fails_at = { λ d. D.fails_at d.disk };

    ghost seen = { λ d. D.seen d.disk };

    ghost may_leave = { λ d. D.may_leave d.disk };

    ghost moment = { λ d. D.moment d.disk };

    ghost left_since = { λ d. D.left_since d.disk };

    ghost faults = { λ d. d.faults };

    ghost reach = { λ d. max (D.reach d.disk) d.reach };

    ghost room = { λ d. D.room d.disk };

    ghost label = { λ d. D.label d.disk };

    ghost makes = { λ old asked good new.
        MakesOrFails D.makes old.left old.disk asked good new.left new.disk };

    fn size(&mut self) -> Result<u64, Failed> {
        if self.left == 0 {
            self.faults = self.faults.saturating_add(1);
            return Err(Failed);
        }
        self.left -= 1;
        let Ok(size) = self.disk.size() else {
            self.faults = self.faults.saturating_add(1);
            return Err(Failed);
        };
        Ok(size)
    }

    fn read_at(&mut self, place: u64, into: &mut [u8]) -> Result<(), Failed> {
        if self.left == 0 {
            self.faults = self.faults.saturating_add(1);
            return Err(Failed);
        }
        self.left -= 1;
        let Ok(()) = self.disk.read_at(place, into) else {
            self.faults = self.faults.saturating_add(1);
            return Err(Failed);
        };
        Ok(())
    }

    fn write_at(&mut self, place: u64, piece: &[u8]) -> Result<(), Failed> {
        self.reach = self.reach.max(place as u128 + piece.len() as u128);
        if self.left == 0 {
            self.faults = self.faults.saturating_add(1);
            return Err(Failed);
        }
        self.left -= 1;
        let Ok(()) = self.disk.write_at(place, piece) else {
            self.faults = self.faults.saturating_add(1);
            return Err(Failed);
        };
        Ok(())
    }

    fn sync(&mut self) -> Result<(), Failed> {
        if self.left == 0 {
            self.faults = self.faults.saturating_add(1);
            return Err(Failed);
        }
        self.left -= 1;
        let Ok(()) = self.disk.sync() else {
            self.faults = self.faults.saturating_add(1);
            return Err(Failed);
        };
        Ok(())
    }

    fn faults(&self) -> u64 {
        self.faults
    }

    ghost seen_may_stay = { λ d. D.seen_may_stay d.disk };

    ghost counts_now = { λ d. D.counts_now d.disk };

    ghost only_now = { λ d. D.only_now d.disk };

    ghost size_within = { λ d. D.size_within d.disk };

    ghost room_is_small = { λ d. D.room_is_small d.disk };
}
