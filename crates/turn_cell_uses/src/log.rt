//! A log of notes.
ghost use Rattle.std.specs.Prelude.{◌≡◌, ℕ};
ghost use Rattle.turn_cell_uses.specs.Notes.{note_by};

use turn_cell::Told;

/// What one pass noted.
#[derive(Clone, Copy, PartialEq, Eq, Debug, Drop)]
pub struct Note {
    /// The number of the pass.
    pub by: u64,
    pub what: u64,
}

/// Notes, oldest first.
#[derive(Drop)]
pub struct Log {
    /// This never changes in a cell.
    pub kind: u64,
    pub notes: Vec<Note>,
}

impl Told for Log {
    type Entry = Note;

    ghost Tag = { ℕ };

    ghost entries = { λ s. s.notes.items };

    ghost by = { note_by };

    ghost tag = { λ s. s.kind };

    fn count(&self) -> u64 {
        self.notes.len() as u64
    }
}
