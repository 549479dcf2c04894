//! Turns on a tally.
ghost use Rattle.turn_cell.specs.Passes.{pass_number};
ghost use Rattle.turn_cell_uses.specs.Events.{event_by};
ghost use Rattle.turn_cell_uses.specs.Turns.{IsReadyPass, AfterTurn, OneTurn};
ghost use Rattle.turn_cell_uses.specs.declared.tally.Event.TheVariants.{Accepted};

use crate::tally::{Event, Tally};
use std::sync::Wait;
use turn_cell::{Cell, Pass};

/// One turn on a tally, which takes the text. False is want of memory.
pub fn accept<R: Wait>(rt: &R, cell: &Cell<Tally>, pass: &mut Pass<Tally>, text: Vec<u8>) -> bool
    requires cell { IsReadyPass cell.now pass.old }
    ensures value { OneTurn event_by result (Accepted (pass_number pass.old) text)
        pass.old pass.new }
    ensures kept { AfterTurn cell.now pass.old pass.new }
{
    let by = pass.number();
    let mut tally = cell.enter(rt, pass);
    let done = tally.add(Event::Accepted { by, text });
    cell.leave(pass, tally);
    done
}
