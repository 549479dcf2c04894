//! What is known of the gates, and which area is taken (own).

ghost use Rattle.std.specs.Prelude.{◌≡◌};
ghost use Rattle.snap_store.specs.Slots.{slot_of, with_slot, is_closed, is_before};
ghost use Rattle.snap_store.specs.Slots.{newest_side, taken_side, is_open_for, is_stored};
ghost use Rattle.snap_store.specs.Images.{loosened};

use crate::side::Side;

/// What is known of the gate of one area.
#[derive(Clone, Copy)]
pub enum Slot {
    /// It is 0, and synced.
    Closed,
    /// It is 1 and synced, before a whole area of this OPEN row, after so many inputs.
    Open { place: u64, count: u32 },
    /// It may be anything.
    Unsure,
}

impl Slot {
    /// It is 0, and synced.
    pub fn is_closed(self) -> bool
        ensures { result ≡ is_closed self }
    {
        match self {
            Slot::Closed => true,
            Slot::Open { .. } | Slot::Unsure => false,
        }
    }

    /// It is known to be open, before the area of this OPEN row after so many inputs.
    fn is_open_for(self, row: u64, inputs: u32) -> bool
        ensures { result ≡ is_open_for row inputs self }
    {
        match self {
            Slot::Open { place, count } => place == row && count == inputs,
            Slot::Closed | Slot::Unsure => false,
        }
    }

    /// What is known of it once its closing has begun.
    pub fn loosened(self) -> Slot
        ensures { result ≡ loosened self }
    {
        match self {
            Slot::Closed => Slot::Closed,
            Slot::Open { .. } | Slot::Unsure => Slot::Unsure,
        }
    }
}

/// What is known of both.
#[derive(Clone, Copy)]
pub struct Slots {
    pub a: Slot,
    pub b: Slot,
}

fn is_before(place: u64, count: u32, other_place: u64, other_count: u32) -> bool
    ensures { result ≡ is_before place count other_place other_count }
{
    place < other_place || place == other_place && count < other_count
}

impl Slots {
    /// That of one area.
    pub fn of(&self, side: Side) -> Slot
        ensures { result ≡ slot_of self.now side }
    {
        match side {
            Side::A => self.a,
            Side::B => self.b,
        }
    }

    /// From now on this is known of one area.
    pub fn set(&mut self, side: Side, slot: Slot)
        ensures { self.new ≡ with_slot self.old side slot }
    {
        match side {
            Side::A => self.a = slot,
            Side::B => self.b = slot,
        }
    }

    /// The area of this OPEN row after so many inputs is open and synced.
    pub fn has(&self, place: u64, count: u32) -> bool
        ensures { result ≡ is_stored place count self.now }
    {
        self.a.is_open_for(place, count) || self.b.is_open_for(place, count)
    }

    // The newest of the areas that are open and synced.
    fn newest(&self) -> Option<Side>
        ensures { result ≡ newest_side self.now }
    {
        match (self.a, self.b) {
            (Slot::Open { place, count }, Slot::Open { place: q, count: n }) => {
                if is_before(place, count, q, n) {
                    Some(Side::B)
                } else {
                    Some(Side::A)
                }
            }
            (Slot::Open { .. }, _) => Some(Side::A),
            (_, Slot::Open { .. }) => Some(Side::B),
            _ => None,
        }
    }

    /// The area that a put takes: the one that isn't the newest, and A where none is open.
    pub fn taken(&self) -> Side
        ensures { result ≡ taken_side self.now }
    {
        match self.newest() {
            Some(side) => side.other(),
            None => Side::A,
        }
    }
}
