//! Two workers on one log: each note that came is one that a worker was asked for.
ghost use Rattle.std.specs.Prelude.{◌≡◌, ◌∷◌, [], IfOk};
ghost use Rattle.turn_cell.specs.History.{Continues};
ghost use Rattle.turn_cell.specs.Passes.{pass_number, pass_numbers, seen};
ghost use Rattle.turn_cell_uses.specs.Crew.{IsAsked, Noted};
ghost use Rattle.turn_cell_uses.specs.Turns.{IsReadyPass};

use crate::log::{Log, Note};
use std::alloc::{AllocError, Global};
use std::sync::Wait;
use std::thread::{Threads, join};
use turn_cell::{Cell, Pass};

/// One worker: a turn with a note, unless memory is wanted. The pass comes back.
fn noted<R: Wait>(rt: &R, cell: &Cell<Log>, mut pass: Pass<Log>, what: u64) -> Pass<Log>
    requires cell { IsReadyPass cell.now pass }
    requires own { pass_numbers pass ≡ pass_number pass ∷ [] }
    ensures value { Noted (pass_number pass) what (seen pass) result }
    ensures kept { IsReadyPass cell.now result }
{
    let mut log = cell.enter(rt, &mut pass);
    let note = Note {
        by: pass.number(),
        what,
    };
    let _ = log.notes.push(note);
    cell.leave(&mut pass, log);
    pass
}

/// Two workers add a note each to a log, and it comes out again. It has the notes of before, and
/// behind them no note that no worker was asked for.
pub fn served_by_two<R: Threads + Wait + Sync>(
    rt: &R,
    alloc: Global,
    log: Log,
    first: u64,
    second: u64,
) -> Result<Log, AllocError>
    ensures { IfOk result (λ end. Continues (IsAsked first second) end.notes.items
        log.notes.items) }
{
    let (cell, mut root) = Cell::new(alloc, log)?;
    let one = cell.split(alloc, &mut root)?;
    let two = cell.split(alloc, &mut root)?;
    let (one, two) = join(
        rt,
        || -> Pass<Log>
            requires { IsReadyPass cell one × (pass_number one ≡ 1)
                × (pass_numbers one ≡ 1 ∷ []) }
            ensures { IsReadyPass cell result × Noted 1 first (seen one) result }
        { noted(rt, &cell, one, first) },
        || -> Pass<Log>
            requires { IsReadyPass cell two × (pass_number two ≡ 2)
                × (pass_numbers two ≡ 2 ∷ []) }
            ensures { IsReadyPass cell result × Noted 2 second (seen two) result }
        { noted(rt, &cell, two, second) },
    );
    cell.join(&mut root, one);
    cell.join(&mut root, two);
    Ok(cell.enter(rt, &mut root))
}
