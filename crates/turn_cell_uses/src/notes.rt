//! Turns on a log.
ghost use Rattle.std.specs.Prelude.{◌≡◌, ◌+◌, ◌++◌, ◌∷◌, [], IfSome, length};
ghost use Rattle.turn_cell.specs.History.{Continues, IsForeign};
ghost use Rattle.turn_cell.specs.Passes.{pass_number, seen, pass_numbers, KeepsNumbers, IsAlone};
ghost use Rattle.turn_cell_uses.specs.Notes.{note, note_by, NoteStandsAt};
ghost use Rattle.turn_cell_uses.specs.Turns.{IsReadyPass, AfterTurn};

use crate::log::{Log, Note};
use std::sync::Wait;
use turn_cell::{Cell, Pass};

/// Adds a note in a turn, and gives its place in the history. `None` is want of memory.
pub fn add<R: Wait>(rt: &R, cell: &Cell<Log>, pass: &mut Pass<Log>, what: u64) -> Option<u64>
    requires cell { IsReadyPass cell.now pass.old }
    ensures found { IfSome result
        (λ place. NoteStandsAt (seen pass.new) place (pass_number pass.old) what) }
    ensures last { IfSome result (λ place. place + 1 ≡ length (seen pass.new)) }
    ensures alone { IsAlone pass.old
        → IfSome result (λ _. seen pass.new
        ≡ seen pass.old ++ note (pass_number pass.old) what ∷ []) }
    ensures kept { AfterTurn cell.now pass.old pass.new }
{
    let mut log = cell.enter(rt, pass);
    let place = log.notes.len() as u64;
    let note = Note {
        by: pass.number(),
        what,
    };
    let added = log.notes.push(note).is_ok();
    cell.leave(pass, log);
    if added { Some(place) } else { None }
}

/// Adds notes, one after the other.
pub fn add_times<R: Wait>(rt: &R, cell: &Cell<Log>, pass: &mut Pass<Log>, times: u64)
    requires cell { IsReadyPass cell.now pass.old }
    ensures kept { AfterTurn cell.now pass.old pass.new }
{
    for k in 0..times {
        let _ = add(rt, cell, pass, k);
    }
}

/// Ends a cell: its value comes out, and its list begins with what the pass has seen.
pub fn end<R: Wait>(rt: &R, cell: Cell<Log>, mut pass: Pass<Log>) -> Log
    requires cell { IsReadyPass cell pass }
    ensures value { Continues (IsForeign note_by (pass_numbers pass)) result.notes.items
        (seen pass) }
    ensures alone { IsAlone pass → result.notes.items ≡ seen pass }
{
    cell.enter(rt, &mut pass)
}
