//! Events that own memory, in a type with a model.
ghost use Rattle.std.specs.Prelude.{◌≡◌, ◌≤◌, ◌++◌, ◌∷◌, [], ℕ, List, length, MatchBool};
ghost use Rattle.turn_cell_uses.specs.Events.{event_by};
ghost use Rattle.turn_cell_uses.specs.declared.tally.Event.{Event};

use std::alloc::Global;
use std::marker::Model;
use turn_cell::Told;

/// What came of one turn, with the number of its pass.
#[derive(Drop)]
pub enum Event {
    Accepted { by: u64, text: Vec<u8> },
    Faulted { by: u64, from: u64, to: u64 },
}

/// Events, seen as a list and how many of them were faults.
#[derive(Drop)]
pub struct Tally {
    pub(crate) events: Vec<Event>,
    pub(crate) faults: u64,
}

impl Model for Tally {
    ghost Value = { List Event × ℕ };

    ghost view = { λ s. (s.events.items, s.faults) };

    ghost invariant = { λ s. s.faults ≤ length s.events.items };
}

impl Told for Tally {
    type Entry = Event;

    ghost Tag = { Unit {0} };

    ghost entries = { λ s. s.0 };

    ghost by = { event_by };

    ghost tag = { λ _. tt };

    fn count(&self) -> u64 {
        self.events.len() as u64
    }
}

impl Tally {
    pub fn new(alloc: Global) -> Tally
        ensures { result ≡ ([], 0) }
    {
        Tally {
            events: Vec::new(alloc),
            faults: 0,
        }
    }

    /// Adds an event that isn't counted as a fault. False is want of memory.
    pub fn add(&mut self, event: Event) -> bool
        ensures value { MatchBool result (self.new.0 ≡ self.old.0 ++ event ∷ [])
            (self.new.0 ≡ self.old.0) }
        ensures kept { self.new.1 ≡ self.old.1 }
    {
        self.events.push(event).is_ok()
    }
}
