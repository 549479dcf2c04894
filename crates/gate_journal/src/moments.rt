//! The disk of a journal at each of its entries (own).

ghost use Rattle.std.specs.Prelude.{◌≡◌, ◌++◌, [], ◌∷◌, OnOk, true};

use std::alloc::{AllocError, Global};
use std::marker::Model;
use std::snapshot::Snapshot;

/// A disk as it stood at some entries. It has no bytes, and only clauses read it.
#[derive(Drop)]
pub struct Moments<D> {
    disks: Vec<Snapshot<D>>,
}

impl<D> Model for Moments<D> {
    ghost use Rattle.std.specs.Prelude.{map, vec_len, vec_capacity, nat_lt};
    ghost use Rattle.gate_journal.specs.History.{Stood};

    ghost Value = { Stood D };

    ghost view = { λ s. record {
      list = map (λ d. d.value) s.disks.items;
      room = nat_lt (vec_len s.disks) (vec_capacity s.disks);
    } };
}

impl<D> Moments<D> {
    /// None.
    pub fn new(alloc: Global) -> Moments<D>
        ensures { result.list ≡ [] }
    {
        Moments {
            disks: Vec::new(alloc),
        }
    }

    /// Makes room for one more; an error where memory runs out.
    pub fn reserve(&mut self) -> Result<(), AllocError>
        ensures ok { OnOk result (self.new.room ≡ true) }
        ensures kept { self.new.list ≡ self.old.list }
    {
        self.disks.reserve(1)
    }

    /// Takes down how the disk stands now.
    pub fn note(&mut self, disk: &D)
        requires { self.old.room ≡ true }
        ensures { self.new.list ≡ self.old.list ++ disk.now ∷ [] }
    {
        self.disks.push_reserved(Snapshot::of(disk));
    }
}
