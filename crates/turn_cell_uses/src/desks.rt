//! Turns on a desk, each with a turn on the shared book inside it.
ghost use Rattle.std.specs.Prelude.{◌≡◌, ◌+◌, ◌^◌, ◌<◌, ◌++◌, ◌∷◌, []};
ghost use Rattle.std.specs.Prelude.{ℕ, List, Some, IfOk, MatchBool};
ghost use Rattle.turn_cell.specs.Passes.{pass_number, pass_numbers, seen, IsOf, IsOutside, IsAlone};
ghost use Rattle.turn_cell_uses.specs.Notes.{note, note_by};
ghost use Rattle.turn_cell_uses.specs.Rows.{rows_by};
ghost use Rattle.turn_cell_uses.specs.Turns.{IsReadyPass, AfterTurn, OneTurn};
ghost use Rattle.turn_cell_uses.specs.DeskTag.{IsDeskOfBook};

use crate::book::{Book, Disk};
use crate::desk::Desk;
use crate::log::Note;
use std::alloc::{AllocError, Global};
use std::sync::Wait;
use turn_cell::{Cell, Pass};

/// A cell with the desk of a session that has no rows yet. The pass is that of the session's
/// number, one more than the session.
pub fn open_desk<'i, D: Disk + Drop>(
    alloc: Global,
    stories: &'i [u64],
    session: u64,
    book: &Cell<Book<D>>,
    pass: Pass<Book<D>>,
) -> Result<(Cell<Desk<'i, D>>, Pass<Desk<'i, D>>), AllocError>
    requires session { session < 64 }
    requires pass { IsReadyPass book.now pass × (pass_number pass ≡ session + 1) }
    requires none { (pass_numbers pass ≡ (session + 1) ∷ []) × (seen pass ≡ []) }
    ensures ok { IfOk result (λ r. IsReadyPass r.0 r.1 × IsDeskOfBook book.now r.1 × IsAlone r.1
        × (seen r.1 ≡ [])) }
{
    let desk = Desk {
        stories,
        session,
        entries: Vec::new(alloc),
        pass,
    };
    Cell::new(alloc, desk)
}

impl<'i, D: Disk + Drop> Desk<'i, D> {
    /// Writes a row to the shared book, and keeps an entry of the turn's pass.
    #[tactic(auto, using(crate::proofs::RowLemmas::whats_adds, crate::proofs::RowLemmas::whats_since))]
    pub fn commit<R: Wait>(&mut self, rt: &R, cell: &Cell<Book<D>>, by: u64, what: u64) -> bool
        requires cell { IsOf cell.now self.old.pass }
        requires session { self.old.session < 64 }
        ensures value { MatchBool result
            (self.new.entries.items ≡ self.old.entries.items ++ note by what ∷ [])
            (self.new.entries.items ≡ self.old.entries.items) }
        ensures kept { (self.new.session ≡ self.old.session)
            × (self.new.stories ≡ self.old.stories) }
        ensures cell { self.new.pass.known.place.table_id ≡ self.old.pass.known.place.table_id }
    {
        if self.entries.reserve(1).is_err() {
            return false;
        }
        let note = Note {
            by: self.session + 1,
            what,
        };
        let pass = &mut self.pass;
        let mut book = cell.enter(rt, pass);
        let done = book.append(note);
        cell.leave(pass, book);
        if done {
            self.entries.push_reserved(Note { by, what });
        }
        done
    }
}

/// One turn on one session.
pub fn request<'i, D: Disk + Drop, R: Wait>(
    rt: &R,
    book: &Cell<Book<D>>,
    desk_cell: &Cell<Desk<'i, D>>,
    pass: &mut Pass<Desk<'i, D>>,
    what: u64,
) -> bool
    requires cell { IsReadyPass desk_cell.now pass.old }
    requires desk { IsDeskOfBook book.now pass.old }
    ensures value { OneTurn note_by result (note (pass_number pass.old) what) pass.old pass.new }
    ensures kept { AfterTurn desk_cell.now pass.old pass.new }
{
    let number = pass.number();
    let mut desk = desk_cell.enter(rt, pass);
    let done = desk.commit(rt, book, number, what);
    desk_cell.leave(pass, desk);
    done
}
