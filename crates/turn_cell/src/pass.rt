//! What one holder of a pass knows of a cell.
ghost use Rattle.std.specs.Prelude.{◌≡◌, length, IsSome};
ghost use Rattle.turn_cell.specs.Views.{HasNumberFirst};

use crate::told::Told;
use crate::view::View;
use atomic_table::Seat;

/// The fields of a pass.
// It has no bound: a struct with a ghost field and a bound of its own cannot be a field of a
// generic struct where only a generic `impl` meets that bound.
#[derive(Drop)]
pub struct Known<T, E> {
    pub(crate) place: Seat<Option<T>, View<E, T>>,
    pub(crate) number: u64,
    pub(crate) made: u64,
    // The length of what was seen.
    pub(crate) count: u64,
    pub ghost numbered: { (number ≡ place.me.0.number) × HasNumberFirst place.me.0 },
    pub ghost tagged: { IsSome place.me.0.sample },
    pub ghost counted: { (made ≡ place.me.0.made) × (count ≡ length place.me.0.seen) },
}

/// The right to have the value of one cell in turn. A pass has a number, and has seen a list that
/// the cell's history begins with.
#[derive(Drop)]
pub struct Pass<T: Told> {
    pub(crate) known: Known<T, T::Entry>,
}

impl<T: Told> Pass<T> {
    /// The pass's own number: 0 for the root, else from 1 to 2^32.
    pub fn number(&self) -> u64
        ensures { result ≡ self.now.known.number }
    {
        self.known.number
    }

    /// How many passes were split from this one.
    pub fn made(&self) -> u64
        ensures { result ≡ self.now.known.made }
    {
        self.known.made
    }
}
