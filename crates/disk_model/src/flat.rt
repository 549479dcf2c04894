//! A disk in a fixed room of bytes, all of it reserved. As a `Disk` it tells nothing of them.

ghost use Rattle.std.specs.Prelude.{◌≡◌, ◌≤◌, ◌+◌, ◌-◌, ◌<◌, ◌^◌, ◌↔◌, true, false, min, max};
ghost use Rattle.std.specs.Prelude.{[], length, vec_capacity, Ok, IsOk, IfOk, OnOk, OnErr};
ghost use Rattle.disk_model.specs.Disk.{ReadsFile, file_written, CountsErrors};

use crate::note::{put_piece, read_into};
use crate::{Disk, Failed};
use std::alloc::{AllocError, Global};

/// A disk in a fixed room of bytes. It fails in nothing but a write past its room.
#[derive(Drop)]
pub struct FlatDisk {
    bytes: Vec<u8>,
    room: u32,
    reach: u128,
    faults: u64,
    label: u64,
    ghost within: { length bytes.items ≤ room },
    ghost small: { room < 2 ^ 32 },
    ghost reserved: { room ≤ vec_capacity bytes },
}

impl FlatDisk {
    ghost use Rattle.disk_model.specs.Flat.{flat_bytes, flat_room, flat_reach, flat_faults};
    ghost use Rattle.disk_model.specs.Flat.{flat_label};

    /// An empty disk of this many bytes of room, all of them reserved here.
    pub fn new(alloc: Global, room: u32) -> Result<FlatDisk, AllocError>
        ensures value { IfOk result (λ d.
            (flat_bytes d ≡ []) × (flat_room d ≡ room)
            × (flat_reach d ≡ 0) × (flat_faults d ≡ 0)) }
        ensures label { IfOk result (λ d. flat_label d ≡ 0) }
    {
        Ok(FlatDisk {
            bytes: Vec::with_capacity(alloc, room as usize)?,
            room,
            reach: 0,
            faults: 0,
            label: 0,
        })
    }

    /// From now on its outside knows it by this number.
    pub fn set_label(&mut self, label: u64)
        ensures value { flat_label self.new ≡ label }
        ensures kept { (flat_bytes self.new ≡ flat_bytes self.old)
            × (flat_room self.new ≡ flat_room self.old)
            × (flat_reach self.new ≡ flat_reach self.old)
            × (flat_faults self.new ≡ flat_faults self.old) }
    {
        self.label = label;
    }
}

impl Disk for FlatDisk {
    ghost use Rattle.std.proofs.Common.{rules, arith};
    ghost use Rattle.disk_model.specs.Flat.{flat_bytes, flat_room, flat_reach, flat_faults};
    ghost use Rattle.disk_model.specs.Flat.{flat_label};

    ghost tells = { λ _. false };

    ghost steady = { λ _. true };

    ghost fails_at = { λ _ _. false };

    ghost seen = { λ _. [] };

    ghost may_leave = { λ _ _. Unit {0} };

    ghost moment = { λ _. 0 };

    ghost left_since = { λ _ _ _. Unit {0} };

    ghost faults = { flat_faults };

    ghost reach = { flat_reach };

    ghost room = { flat_room };

    ghost label = { flat_label };

    fn size(&mut self) -> Result<u64, Failed>
        ensures value { result ≡ Ok (length (flat_bytes self.old)) }
        ensures kept { self.new ≡ self.old }
    {
        Ok(self.bytes.len() as u64)
    }

    fn read_at(&mut self, place: u64, into: &mut [u8]) -> Result<(), Failed>
        ensures value { IsOk result × ReadsFile (flat_bytes self.old) place into.new }
        ensures kept { self.new ≡ self.old }
    {
        read_into(&self.bytes, place, into);
        Ok(())
    }

    fn write_at(&mut self, place: u64, piece: &[u8]) -> Result<(), Failed>
        ensures ok { OnOk result (flat_bytes self.new
            ≡ file_written (flat_bytes self.old) place piece.now) }
        ensures works { IsOk result ↔ (place + length piece.now ≤ flat_room self.old) }
        ensures err { OnErr result ((flat_bytes self.new ≡ flat_bytes self.old)
            × (flat_faults self.new ≡ min (flat_faults self.old + 1) (2 ^ 64 - 1))) }
        ensures cause { CountsErrors result (flat_faults self.old) (flat_faults self.new) }
        ensures reach { flat_reach self.new
            ≡ max (flat_reach self.old) (place + length piece.now) }
        ensures kept { (flat_room self.new ≡ flat_room self.old)
            × (flat_label self.new ≡ flat_label self.old) }
    {
        let end = place as u128 + piece.len() as u128;
        self.reach = self.reach.max(end);
        if end > self.room as u128 {
            self.faults = self.faults.saturating_add(1);
            return Err(Failed);
        }
        // It answers Ok: the room is reserved.
        let _ = put_piece(&mut self.bytes, place as usize, piece);
        Ok(())
    }

    fn sync(&mut self) -> Result<(), Failed>
        ensures value { IsOk result }
        ensures kept { self.new ≡ self.old }
    {
        Ok(())
    }

    fn faults(&self) -> u64 {
        self.faults
    }

    ghost seen_may_stay = { λ _. tt };

    ghost counts_now = { λ _ _ _ _ _. tt };

    ghost only_now = { λ _ _ _. tt };

    ghost size_within = { λ _ told. Prim.search rules };

    ghost room_is_small = { λ d. Prim.omega (arith, d.small) };
}
