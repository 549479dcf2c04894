//! A desk: a value for one cell that has a pass of another.
ghost use Rattle.std.specs.Prelude.{◌≡◌, ◌+◌, ◌∷◌, [], ℕ, List};
ghost use Rattle.turn_cell.specs.declared.view.Stage.TheVariants.{Idle};
ghost use Rattle.turn_cell_uses.specs.Notes.{note_by};
ghost use Rattle.turn_cell_uses.specs.Rows.{rows_by, whats};

use crate::book::{Book, Disk};
use crate::log::Note;
use turn_cell::{Pass, Told};

/// One session. What its entries say is what its own rows in the shared book say.
#[derive(Drop)]
pub struct Desk<'i, D: Disk> {
    pub(crate) stories: &'i [u64],
    pub(crate) session: u64,
    pub(crate) entries: Vec<Note>,
    pub(crate) pass: Pass<Book<D>>,
    ghost outside: { (pass.known.place.me.0.stage ≡ Idle) × (pass.known.place.me.1 ≡ []) },
    ghost numbered: { (session + 1 ≡ pass.known.number)
        × (pass.known.place.me.0.holds ≡ (session + 1) ∷ []) },
    ghost owned: { whats entries.items ≡ whats (rows_by (session + 1) pass.known.place.me.0.seen) },
}

impl<'i, D: Disk> Told for Desk<'i, D> {
    ghost use Rattle.turn_cell_uses.specs.DeskTag.{BookDeskTag, book_desk_tag};

    type Entry = Note;

    ghost Tag = { BookDeskTag };

    ghost entries = { λ s. s.entries.items };

    ghost by = { note_by };

    ghost tag = { book_desk_tag };

    fn count(&self) -> u64 {
        self.entries.len() as u64
    }
}
