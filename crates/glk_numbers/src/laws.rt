//! A law of numbers.

ghost use Rattle.std.specs.Prelude.{ℕ, ◌≡◌, true};
ghost use Rattle.glk_numbers.specs.Numbered.{IsLeastAbove, number_above, ascends};

use crate::numbered::Numbered;

/// Where the numbers ascend from 1 on, what `next_above` tells is the least number above this one,
/// and 0 exactly where there is none.
#[tactic(auto, using(crate::proofs::NumberedLemmas::after_is_least))]
pub fn next_is_least<T: Numbered>(items: &[T], number: u32)
    ensures { (high : ℕ) → ascends T.number_of 0 high items.now ≡ true
        → IsLeastAbove T.number_of items.now number (number_above T.number_of items.now number) }
{}
