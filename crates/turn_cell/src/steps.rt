//! The rule of a cell's table, and the kinds of step on it.
ghost use Rattle.turn_cell.specs.Views.{starting, with_one_more, split_off, joined, spent};
ghost use Rattle.turn_cell.specs.Steps.{Draws, LooksAtServed, Raises, PassesOn, LearnsBoth};
ghost use Rattle.turn_cell.specs.Rule.{Legal};

use crate::told::Told;
use crate::view::View;
use atomic_table::{Join, Play, Seat, Shared, Split, TableRule};
use std::marker::PhantomData;
use std::snapshot::Snapshot;

/// The rule: it is kept for the value with which the cell was made.
pub struct CellRule<T> {
    of: PhantomData<T>,
}

impl<T: Told> TableRule<Option<T>, View<T::Entry, T>, Snapshot<T>> for CellRule<T> {
    ghost holds = { λ key. Legal T.entries T.by T.tag key.value };

    ghost first = { λ key. starting T.entries key.value };
}

pub(crate) type CellTable<T> = Shared<
    Option<T>,
    View<<T as Told>::Entry, T>,
    Snapshot<T>,
    CellRule<T>,
>;

pub(crate) type CellSeat<T> = Seat<Option<T>, View<<T as Told>::Entry, T>>;

// Draws a ticket: word 0 grows by 1.
pub(crate) struct Draw;

impl<S, E, T> Play<S, View<E, T>> for Draw {
    ghost then = { Draws };
}

// Looks which ticket is served: word 1 is read. Where it is the seat's, the slot comes with it.
pub(crate) struct Look<T> {
    of: PhantomData<T>,
}

impl<T: Told> Play<Option<T>, View<T::Entry, T>> for Look<T> {
    ghost then = { LooksAtServed T.entries T.by T.tag };
}

// Tells that the history is one longer: word 2 grows by 1.
pub(crate) struct Raise<T> {
    of: PhantomData<T>,
}

impl<T: Told> Play<Option<T>, View<T::Entry, T>> for Raise<T> {
    ghost then = { Raises T.entries };
}

// Passes the turn on: word 1 grows by 1, and the slot goes back to the table.
pub(crate) struct PassOn;

impl<S, E, T> Play<S, View<E, T>> for PassOn {
    ghost then = { PassesOn };
}

// Splits a seat off the root's.
pub(crate) struct SplitOff;

impl<E, T> Split<View<E, T>> for SplitOff {
    ghost left = { with_one_more };

    ghost right = { split_off };
}

// Makes one seat of two.
pub(crate) struct JoinBoth;

impl<E, T> Join<View<E, T>> for JoinBoth {
    ghost both = { joined };

    ghost spent = { spent };
}

// Learns, after a join, what each of the two had seen of the one history: word 0 is read.
pub(crate) struct Learn<T> {
    of: PhantomData<T>,
}

impl<T: Told> Play<Option<T>, View<T::Entry, T>> for Learn<T> {
    ghost then = { LearnsBoth T.by };
}
