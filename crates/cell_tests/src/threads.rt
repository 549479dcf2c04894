//! Turns on real threads, and a disk that refuses a row.
ghost use Rattle.std.specs.Prelude.{◌≡◌, ◌∷◌, [], IfOk};
ghost use Rattle.turn_cell.specs.Passes.{pass_number, pass_numbers, seen};
ghost use Rattle.turn_cell_uses.specs.Turns.{IsReadyPass};
ghost use Rattle.turn_cell_uses.specs.DeskTag.{IsDeskOfBook};

use std::alloc::{AllocError, Global};
use std::sync::Wait;
use std::test::Fail;
use std::thread::{Threads, join};
use turn_cell::{Cell, Pass, Told};
use turn_cell_uses::{
    Answer, Book, Desk, Disk, Log, add_both, add_times, end, open_desk, request, serve,
};

fn empty_log(rt: &HostRuntime) -> Log {
    Log {
        kind: 1,
        notes: Vec::new(rt.alloc()),
    }
}

// A cell, its root, and two passes that were split from it.
type SplitCell<T> = (Cell<T>, Pass<T>, Pass<T>, Pass<T>);

// A cell with this value, whose root was split twice.
fn split_twice<T: Told + Drop>(alloc: Global, value: T) -> Result<SplitCell<T>, AllocError>
    ensures root { IfOk result (λ r. IsReadyPass r.0 r.1) }
    ensures first { IfOk result (λ r. IsReadyPass r.0 r.2 × (pass_number r.2 ≡ 1)
        × (pass_numbers r.2 ≡ 1 ∷ []) × (seen r.2 ≡ T.entries value)) }
    ensures second { IfOk result (λ r. IsReadyPass r.0 r.3 × (pass_number r.3 ≡ 2)
        × (pass_numbers r.3 ≡ 2 ∷ []) × (seen r.3 ≡ T.entries value)) }
{
    let (cell, mut root) = Cell::new(alloc, value)?;
    let one = cell.split(alloc, &mut root)?;
    let two = cell.split(alloc, &mut root)?;
    Ok((cell, root, one, two))
}

// Whether the notes have the first two places, and the pass that is left is the first split.
fn are_first_and_second(added: &Option<(Pass<Log>, u64, u64)>) -> bool {
    let Some((pass, a, b)) = added else {
        return false;
    };
    let in_order = (*a, *b) == (0, 1);
    let turned = (*a, *b) == (1, 0);
    (in_order || turned) && pass.number() == 1 && pass.made() == 0
}

#[test]
fn two_threads_note_in_one_history(rt: HostRuntime) -> Result<(), Fail> {
    let added = add_both(&rt, rt.alloc(), 5, 6)?;
    assert!(rt; are_first_and_second(&added));
    Ok(())
}

#[test]
fn two_threads_take_10_000_turns_each(rt: HostRuntime) -> Result<(), Fail> {
    let (cell, root, mut one, mut two) = split_twice(rt.alloc(), empty_log(&rt))?;
    join(
        &rt,
        || -> ()
            requires { IsReadyPass cell one }
        { add_times(&rt, &cell, &mut one, 10_000) },
        || -> ()
            requires { IsReadyPass cell two }
        { add_times(&rt, &cell, &mut two, 10_000) },
    );
    let log = end(&rt, cell, root);
    assert!(rt; log.notes.len() == 20_000);
    Ok(())
}

// A disk that takes so many writes.
#[derive(Drop)]
struct Short {
    left: u64,
}

impl Disk for Short {
    ghost label = { λ _. 0 };

    fn write(&mut self, _x: u64) -> bool {
        if self.left == 0 {
            return false;
        }
        self.left -= 1;
        true
    }
}

// What the desk of session 0 answers to three texts.
fn served<R: Wait>(
    rt: &R,
    alloc: Global,
    book: &Cell<Book<Short>>,
    first: Pass<Book<Short>>,
) -> Result<Vec<Answer>, AllocError>
    requires pass { IsReadyPass book.now first × (pass_number first ≡ 1) }
    requires none { (pass_numbers first ≡ 1 ∷ []) × (seen first ≡ []) }
{
    let (desk, mut pass) = open_desk(alloc, &[1, 2], 0, book, first)?;
    serve(rt, alloc, book, &desk, &mut pass, &[7, 9, 10])
}

// Whether each answer has its place as its mark, and all but the third were accepted.
fn are_two_accepted_of_three(answers: &[Answer]) -> bool {
    let [first, second, third] = answers else {
        return false;
    };
    first.mark == 0
        && first.accepted
        && second.mark == 1
        && second.accepted
        && third.mark == 2
        && !third.accepted
}

#[test]
fn a_refused_row_is_no_entry(rt: HostRuntime) -> Result<(), Fail> {
    let value = Book::new(rt.alloc(), Short { left: 2 });
    let (book, _root, first, _second) = split_twice(rt.alloc(), value)?;
    let answers = served(&rt, rt.alloc(), &book, first)?;
    assert!(rt; are_two_accepted_of_three(&answers));
    Ok(())
}

fn two_requests<'i, D: Disk + Drop + Send, R: Threads + Wait + Sync>(
    rt: &R,
    book: &Cell<Book<D>>,
    first: &Cell<Desk<'i, D>>,
    second: &Cell<Desk<'i, D>>,
    mut one: Pass<Desk<'i, D>>,
    mut two: Pass<Desk<'i, D>>,
    what: u64,
) -> (bool, bool)
    requires one { IsReadyPass first.now one × IsDeskOfBook book.now one }
    requires two { IsReadyPass second.now two × IsDeskOfBook book.now two }
{
    join(
        rt,
        || -> bool
            requires { IsReadyPass first.now one × IsDeskOfBook book.now one }
        { request(rt, book, first, &mut one, what) },
        || -> bool
            requires { IsReadyPass second.now two × IsDeskOfBook book.now two }
        { request(rt, book, second, &mut two, what) },
    )
}

// Whether a text is accepted at the desks of sessions 0 and 1, on a thread each.
fn both_accepted<R: Threads + Wait + Sync>(
    rt: &R,
    alloc: Global,
    book: &Cell<Book<Short>>,
    first: Pass<Book<Short>>,
    second: Pass<Book<Short>>,
) -> Result<(bool, bool), AllocError>
    requires first { IsReadyPass book.now first × (pass_number first ≡ 1)
        × (pass_numbers first ≡ 1 ∷ []) × (seen first ≡ []) }
    requires second { IsReadyPass book.now second × (pass_number second ≡ 2)
        × (pass_numbers second ≡ 2 ∷ []) × (seen second ≡ []) }
{
    let (desk, pass) = open_desk(alloc, &[1, 2], 0, book, first)?;
    let (other, other_pass) = open_desk(alloc, &[1, 2], 1, book, second)?;
    Ok(two_requests(rt, book, &desk, &other, pass, other_pass, 8))
}

#[test]
fn two_threads_turn_on_two_desks_of_one_book(rt: HostRuntime) -> Result<(), Fail> {
    let value = Book::new(rt.alloc(), Short { left: 2 });
    let (book, _root, first, second) = split_twice(rt.alloc(), value)?;
    let both = both_accepted(&rt, rt.alloc(), &book, first, second)?;
    assert!(rt; both == (true, true));
    Ok(())
}
