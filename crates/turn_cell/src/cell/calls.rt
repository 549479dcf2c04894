//! What the holders of passes do with a cell.
ghost use Rattle.std.specs.Prelude.{◌≡◌, ◌≢◌, ◌⊎◌, ◌+◌, ◌^◌, ◌<◌, ◌≤◌, ◌++◌, IfOk, IfErr, Some};
ghost use Rattle.turn_cell.specs.History.{AreApart, Continues, IsForeign};
ghost use Rattle.turn_cell.specs.Views.{MayLeave};
ghost use Rattle.turn_cell.specs.Passes.{view, pass_number, made, seen, pass_numbers, sample};
ghost use Rattle.turn_cell.specs.Passes.{tag_of, HoldsAll, IsOf, IsOutside, IsInTurn, IsAlone};
ghost use Rattle.turn_cell.specs.Passes.{KeepsNumbers, IsRoot, IsSplitFrom};

use super::Cell;
use crate::pass::{Known, Pass};
use crate::steps::{JoinBoth, Learn, SplitOff};
use crate::told::Told;
use crate::turn::{put_back, take_value};
use atomic_table::{Refused, Table};
use std::alloc::{AllocError, Global};
use std::snapshot::Snapshot;
use std::sync::Wait;

impl<T: Told + Drop> Cell<T> {
    /// A cell with this value, and its root: the pass with the number 0, from which all others are
    /// split. The root is alone until then. The only error is want of memory.
    pub fn new(alloc: Global, value: T) -> Result<(Cell<T>, Pass<T>), AllocError>
        ensures { IfOk result (λ pair. IsRoot T.entries T.tag value pair.0 pair.1) }
    {
        let about = Snapshot::of(&value);
        let count = value.count();
        let mut slots = Vec::with_capacity(alloc, 1)?;
        slots.push_reserved(Some(value));
        match Table::new(alloc, &[0, 0, count], slots, &about) {
            Ok((table, place)) => Ok((
                Cell { table },
                Pass {
                    known: Known {
                        place,
                        number: 0,
                        made: 0,
                        count,
                    },
                },
            )),
            Err(Refused { slots: _ }) => Err(AllocError),
        }
    }

    /// Waits for its turn, and gives the value. Its list goes on from what the pass had seen, by
    /// entries of others alone, and not at all where the pass is alone, or is the root again with
    /// all that were split from it. What the root hadn't seen is of numbers that it gave.
    pub fn enter<R: Wait>(&self, rt: &R, pass: &mut Pass<T>) -> T
        requires cell { IsOf self.now pass.old }
        requires outside { IsOutside pass.old }
        ensures value { Continues (IsForeign T.by (pass_numbers pass.old)) (T.entries result)
            (seen pass.old) }
        ensures given { pass_number pass.old ≡ 0
            → Continues (λ e. T.by e ≤ made pass.old) (T.entries result) (seen pass.old) }
        ensures complete { HoldsAll pass.old → T.entries result ≡ seen pass.old }
        ensures alone { IsAlone pass.old → T.entries result ≡ seen pass.old }
        ensures tag { tag_of T.tag pass.old ≡ Some (T.tag result) }
        ensures kept { IsOf self.now pass.new × KeepsNumbers pass.old pass.new
            × (made pass.new ≡ made pass.old) }
        ensures inside { IsInTurn pass.new }
        ensures seen { seen pass.new ≡ T.entries result }
    {
        let known = &mut pass.known;
        let value = take_value(rt, &self.table.shared, &mut known.place);
        known.count = value.count();
        value
    }

    /// Puts the value back, with at most one entry more than the pass has seen, and that one of the
    /// pass's number. Then the next one has its turn.
    pub fn leave(&self, pass: &mut Pass<T>, value: T)
        requires cell { IsOf self.now pass.old }
        requires inside { IsInTurn pass.old }
        requires value { MayLeave T.entries T.by T.tag (view pass.old) value }
        ensures kept { IsOf self.now pass.new × KeepsNumbers pass.old pass.new
            × (made pass.new ≡ made pass.old) }
        ensures outside { IsOutside pass.new }
        ensures seen { seen pass.new ≡ T.entries value }
    {
        let known = &mut pass.known;
        let count = known.count;
        known.count = put_back(&self.table.shared, &mut known.place, value, count);
    }

    /// Splits a pass off the root, which isn't alone any more. The new pass has seen as much, and
    /// the next number: the first is 1. It waits for nobody.
    pub fn split(&self, _alloc: Global, pass: &mut Pass<T>) -> Result<Pass<T>, AllocError>
        requires cell { IsOf self.now pass.old }
        requires outside { IsOutside pass.old }
        requires root { (pass_number pass.old ≡ 0) × (made pass.old < 2 ^ 32) }
        ensures ok { IfOk result (λ new. IsSplitFrom self.now pass.old new
            × (made pass.new ≡ made pass.old + 1)) }
        ensures err { IfErr result (λ _. made pass.new ≡ made pass.old) }
        ensures kept { IsOf self.now pass.new × KeepsNumbers pass.old pass.new }
        ensures outside { IsOutside pass.new }
        ensures seen { seen pass.new ≡ seen pass.old }
    {
        let known = &mut pass.known;
        let number = known.made + 1;
        let place = self.table.shared.split_seat::<SplitOff>(&mut known.place);
        known.made = number;
        Ok(Pass {
            known: Known {
                place,
                number,
                made: 0,
                count: known.count,
            },
        })
    }

    /// Makes one pass of two, which holds the numbers of both and has seen the longer of the two
    /// lists. What came since either had seen it is of numbers that this one didn't hold, and where
    /// this one is the root, of numbers that it gave. No number was held by both.
    pub fn join(&self, pass: &mut Pass<T>, other: Pass<T>)
        requires cell { IsOf self.now pass.old × IsOf self.now other }
        requires outside { IsOutside pass.old × IsOutside other }
        requires other { pass_number other ≢ 0 }
        ensures holds { pass_numbers pass.new ≡ pass_numbers pass.old ++ pass_numbers other }
        ensures kept { IsOf self.now pass.new × (pass_number pass.new ≡ pass_number pass.old)
            × (made pass.new ≡ made pass.old) × (sample pass.new ≡ sample pass.old) }
        ensures outside { IsOutside pass.new }
        ensures seen { (seen pass.new ≡ seen pass.old) ⊎ (seen pass.new ≡ seen other) }
        ensures first { Continues (IsForeign T.by (pass_numbers pass.old)) (seen pass.new)
            (seen pass.old) }
        ensures second { Continues (IsForeign T.by (pass_numbers other)) (seen pass.new)
            (seen other) }
        ensures given { pass_number pass.old ≡ 0
            → Continues (λ e. T.by e ≤ made pass.old) (seen pass.new) (seen pass.old) }
        ensures apart { AreApart (pass_numbers pass.old) (pass_numbers other) }
    {
        let Pass {
            known: Known { place, count, .. },
        } = other;
        let shared = &self.table.shared;
        let known = &mut pass.known;
        shared.join_seat::<JoinBoth>(&mut known.place, place);
        shared.load::<Learn<T>>(&mut known.place, 0);
        if count > known.count {
            known.count = count;
        }
    }
}
