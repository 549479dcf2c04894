//! A link: a turn for each text, and an answer for each turn.
ghost use Rattle.std.specs.Prelude.{◌≡◌, ◌++◌, ◌∷◌, [], ℕ, List, length, IfOk};
ghost use Rattle.turn_cell.specs.Passes.{pass_number, seen, pass_numbers};
ghost use Rattle.turn_cell_uses.specs.declared.log.Note.{Note};
ghost use Rattle.turn_cell_uses.specs.Turns.{IsReadyPass, AfterTurn};
ghost use Rattle.turn_cell_uses.specs.Answers.{notes_after_turn, Later, AnswersEachTurn};
ghost use Rattle.turn_cell_uses.specs.DeskTag.{IsDeskOfBook};

use crate::answer::Answer;
use crate::book::{Book, Disk};
use crate::desk::Desk;
use std::alloc::{AllocError, Global};
use std::sync::Wait;
use turn_cell::{Cell, Pass};

/// One turn on one session. The mark is the length of its history as the turn began.
pub fn turn<'i, D: Disk + Drop, R: Wait>(
    rt: &R,
    book: &Cell<Book<D>>,
    desk_cell: &Cell<Desk<'i, D>>,
    pass: &mut Pass<Desk<'i, D>>,
    what: u64,
) -> Answer
    requires cell { IsReadyPass desk_cell.now pass.old }
    requires desk { IsDeskOfBook book.now pass.old }
    ensures value { (before : List Note) × Later (pass_numbers pass.old) before (seen pass.old)
        × (result.mark ≡ length before)
        × (seen pass.new ≡ notes_after_turn result.accepted (pass_number pass.old) what before) }
    ensures kept { AfterTurn desk_cell.now pass.old pass.new }
{
    let number = pass.number();
    let mut desk = desk_cell.enter(rt, pass);
    let mark = desk.entries.len() as u64;
    let accepted = desk.commit(rt, book, number, what);
    desk_cell.leave(pass, desk);
    Answer { mark, accepted }
}

/// A turn for each text of a link, in order. The only error is want of memory, before any turn.
pub fn serve<'i, D: Disk + Drop, R: Wait>(
    rt: &R,
    alloc: Global,
    book: &Cell<Book<D>>,
    desk_cell: &Cell<Desk<'i, D>>,
    pass: &mut Pass<Desk<'i, D>>,
    texts: &[u64],
) -> Result<Vec<Answer>, AllocError>
    requires cell { IsReadyPass desk_cell.now pass.old }
    requires desk { IsDeskOfBook book.now pass.old }
    ensures ok { IfOk result
        (λ answers. AnswersEachTurn (pass_numbers pass.old) (pass_number pass.old)
        (seen pass.old) texts.now answers.items (seen pass.new)) }
    ensures kept { AfterTurn desk_cell.now pass.old pass.new }
{
    let mut answers = Vec::with_capacity(alloc, texts.len())?;
    for text in texts {
        let answer = turn(rt, book, desk_cell, pass, *text);
        answers.push_reserved(answer);
    }
    Ok(answers)
}
