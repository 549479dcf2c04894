//! Rows over a disk.
ghost use Rattle.std.specs.Prelude.{◌≡◌, ◌++◌, ◌∷◌, [], ℕ, MatchBool};
ghost use Rattle.turn_cell_uses.specs.Notes.{note_by};

use crate::log::Note;
use std::alloc::Global;
use turn_cell::Told;

/// A thing that keeps numbers.
pub trait Disk {
    /// What tells it from others. A write leaves it.
    ghost label: { Self → ℕ };

    fn write(&mut self, x: u64) -> bool
        ensures { label self.new ≡ label self.old };
}

/// The rows that were written to the disk, oldest first.
#[derive(Drop)]
pub struct Book<D> {
    pub(crate) disk: D,
    pub(crate) rows: Vec<Note>,
}

impl<D: Disk> Told for Book<D> {
    type Entry = Note;

    ghost Tag = { ℕ };

    ghost entries = { λ s. s.rows.items };

    ghost by = { note_by };

    ghost tag = { λ s. D.label s.disk };

    fn count(&self) -> u64 {
        self.rows.len() as u64
    }
}

impl<D: Disk> Book<D> {
    /// A book without rows.
    pub fn new(alloc: Global, disk: D) -> Book<D>
        ensures { (result.rows.items ≡ []) × (result.disk ≡ disk) }
    {
        Book {
            disk,
            rows: Vec::new(alloc),
        }
    }

    /// Writes a row. False where memory or the disk didn't take it.
    pub fn append(&mut self, note: Note) -> bool
        ensures value { MatchBool result
            (self.new.rows.items ≡ self.old.rows.items ++ note ∷ [])
            (self.new.rows.items ≡ self.old.rows.items) }
        ensures kept { D.label self.new.disk ≡ D.label self.old.disk }
    {
        if self.rows.reserve(1).is_err() || !self.disk.write(note.what) {
            return false;
        }
        self.rows.push_reserved(note);
        true
    }
}
