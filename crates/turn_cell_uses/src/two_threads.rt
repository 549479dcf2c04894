//! Two threads on one history.
ghost use Rattle.std.specs.Prelude.{◌≡◌, IfSome, IfOk};
ghost use Rattle.turn_cell.specs.Passes.{pass_number, seen};
ghost use Rattle.turn_cell_uses.specs.Notes.{NoteStandsAt};
ghost use Rattle.turn_cell_uses.specs.Turns.{IsReadyPass};

use crate::log::Log;
use crate::notes::add;
use std::alloc::{AllocError, Global};
use std::sync::Wait;
use std::thread::{Threads, join};
use turn_cell::{Cell, Pass};

// The pass, and the place of its note.
type Added = Option<(Pass<Log>, u64)>;

fn add_as<R: Wait>(rt: &R, cell: &Cell<Log>, mut pass: Pass<Log>, what: u64) -> Added
    requires cell { IsReadyPass cell.now pass }
    ensures found { IfSome result (λ r. NoteStandsAt (seen r.0) r.1 (pass_number pass) what) }
    ensures kept { IfSome result
        (λ r. IsReadyPass cell.now r.0 × (pass_number r.0 ≡ pass_number pass)) }
{
    let place = add(rt, cell, &mut pass, what)?;
    Some((pass, place))
}

// A cell with an empty log, and its passes 1 and 2.
fn open_two(alloc: Global) -> Result<(Cell<Log>, Pass<Log>, Pass<Log>), AllocError>
    ensures first { IfOk result (λ r. IsReadyPass r.0 r.1 × (pass_number r.1 ≡ 1)) }
    ensures second { IfOk result (λ r. IsReadyPass r.0 r.2 × (pass_number r.2 ≡ 2)) }
{
    let log = Log {
        kind: 7,
        notes: Vec::new(alloc),
    };
    let (cell, mut root) = Cell::new(alloc, log)?;
    let one = cell.split(alloc, &mut root)?;
    let two = cell.split(alloc, &mut root)?;
    Ok((cell, one, two))
}

/// Two threads add a note each. Both notes stand in one history, at the places that the threads
/// were told, and the pass that is left has seen it.
pub fn add_both<R: Threads + Wait + Sync>(
    rt: &R,
    alloc: Global,
    first: u64,
    second: u64,
) -> Result<Option<(Pass<Log>, u64, u64)>, AllocError>
    ensures { IfOk result (λ o. IfSome o
        (λ r. NoteStandsAt (seen r.0) r.1 1 first × NoteStandsAt (seen r.0) r.2 2 second)) }
{
    let (cell, one, two) = open_two(alloc)?;
    let (a, b) = join(
        rt,
        || -> Added
            requires { IsReadyPass cell one × (pass_number one ≡ 1) }
            ensures { IfSome result (λ r. IsReadyPass cell r.0 × (pass_number r.0 ≡ 1)
                × NoteStandsAt (seen r.0) r.1 1 first) }
        { add_as(rt, &cell, one, first) },
        || -> Added
            requires { IsReadyPass cell two × (pass_number two ≡ 2) }
            ensures { IfSome result (λ r. IsReadyPass cell r.0 × (pass_number r.0 ≡ 2)
                × NoteStandsAt (seen r.0) r.1 2 second) }
        { add_as(rt, &cell, two, second) },
    );
    match (a, b) {
        (Some((mut one, a)), Some((two, b))) => {
            cell.join(&mut one, two);
            Ok(Some((one, a, b)))
        }
        _ => Ok(None),
    }
}
