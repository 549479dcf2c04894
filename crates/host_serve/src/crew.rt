//! Work that many do at once, each in a thread of its own (own).
ghost use Rattle.std.specs.Prelude.{◌<◌, length};
ghost use Rattle.std.specs.Thread.{IsSend, IsSync};
ghost use Rattle.turn_cell.specs.History.{Each};
ghost use Rattle.host_serve.specs.Crews.{AllDid, IsOfTwo, OfBoth, OfSome};

use std::thread::{Threads, join_mut};

/// Work of many members, each of whom answers.
pub trait Crew<M, A> {
    ghost ready: { Self → M → Type 0 };

    /// What its work may leave of a member, and what it answers then.
    ghost did: { Self → M → M → A → Type 0 };

    /// An answer of which one is given for all only where each member gives such a one.
    ghost is_end: { A → Type 0 };

    fn run(&self, member: &mut M) -> A
        requires { ready self.now member.old }
        ensures { did self.now member.old member.new result };

    /// One of two answers.
    fn either(&self, a: A, b: A) -> A
        ensures { IsOfTwo is_end a b result };
}

/// One of two answers, where there are two.
fn of_two<M, A: Drop, C: Crew<M, A>>(crew: &C, a: Option<A>, b: Option<A>) -> Option<A>
    ensures { OfBoth C.is_end a b result }
{
    match (a, b) {
        (Some(a), Some(b)) => Some(crew.either(a, b)),
        _ => None,
    }
}

/// All members do their work, each in a thread of its own where one can be made, and one of their
/// answers is given.
#[cycle(crew)]
pub fn all_run<R: Threads + Sync, M: Send, A: Send + Drop, C: Crew<M, A> + Sync>(
    rt: &R,
    crew: &C,
    answer: &mut Option<A>,
    members: &mut [M],
)
    requires some { 0 < length members.old }
    requires ready { Each (C.ready crew.now) members.old }
    ensures { OfSome (AllDid (C.did crew.now) C.is_end members.old members.new) answer.new }
{
    if members.len() == 1 {
        *answer = Some(crew.run(&mut members[0]));
        return;
    }
    let (front, back) = members.split_at_mut(members.len() / 2);
    let mut other = None;
    both_run(rt, crew, answer, front, &mut other, back);
    *answer = of_two(crew, answer.take(), other);
}

// A separate function from `all_run`, so that what the closures require is what this one is given.
#[cycle(crew)]
fn both_run<R: Threads + Sync, M: Send, A: Send + Drop, C: Crew<M, A> + Sync>(
    rt: &R,
    crew: &C,
    a: &mut Option<A>,
    front: &mut [M],
    b: &mut Option<A>,
    back: &mut [M],
)
    requires front { (0 < length front.old) × Each (C.ready crew.now) front.old }
    requires back { (0 < length back.old) × Each (C.ready crew.now) back.old }
    ensures front { OfSome (AllDid (C.did crew.now) C.is_end front.old front.new) a.new }
    ensures back { OfSome (AllDid (C.did crew.now) C.is_end back.old back.new) b.new }
{
    let mut first = ||
        requires { IsSync R.row × IsSync C.row × IsSend M.row × IsSend A.row
            × (0 < length front.now) × Each (C.ready crew.now) front.now }
        ensures { OfSome (AllDid (C.did crew.entry.now) C.is_end front.entry.now front.exit.now)
            a.exit.now }
    { all_run(rt, crew, a, front) };
    let mut second = ||
        requires { IsSync R.row × IsSync C.row × IsSend M.row × IsSend A.row
            × (0 < length back.now) × Each (C.ready crew.now) back.now }
        ensures { OfSome (AllDid (C.did crew.entry.now) C.is_end back.entry.now back.exit.now)
            b.exit.now }
    { all_run(rt, crew, b, back) };
    join_mut(rt, &mut first, &mut second);
}
