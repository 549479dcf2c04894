//! A class of objects as a list, each with its own number.

ghost use Rattle.std.specs.Prelude.{ℕ, ◌≡◌, ◌<◌, length, IfSome};
ghost use Rattle.glk_numbers.specs.Numbered as numbered;
ghost use Rattle.glk_numbers.specs.Numbered.{number_above, ascends, has};

/// The greatest number that an object is given.
pub const MAX_NUMBER: u32 = 4_294_967_294;

/// A value with a number.
pub trait Numbered {
    ghost number_of: { Self → ℕ };

    /// The number, from 1 on.
    fn number(&self) -> u32
        ensures { result ≡ number_of self.now };
}

/// Whether one of the values has this number.
#[tactic(auto, unfolding(crate::specs::Numbered::has))]
pub fn is_live<T: Numbered>(items: &[T], number: u32) -> bool
    ensures { result ≡ has T.number_of items.now number }
{
    for item in items {
        if item.number() == number {
            return true;
        }
    }
    false
}

/// The first number of the values that is above this one, or 0.
#[tactic(auto, unfolding(crate::specs::Numbered::number_above))]
pub fn next_above<T: Numbered>(items: &[T], number: u32) -> u32
    ensures { result ≡ number_above T.number_of items.now number }
{
    for item in items {
        if item.number() > number {
            return item.number();
        }
    }
    0
}

/// Where the first value with this number is.
#[tactic(auto, unfolding(crate::specs::Numbered::place_of))]
pub fn place_of<T: Numbered>(items: &[T], number: u32) -> Option<usize>
    ensures value { result ≡ numbered.place_of T.number_of items.now number }
    ensures within { IfSome result (λ i. i < length items.now) }
{
    for index in 0..items.len() {
        if items[index].number() == number {
            return Some(index);
        }
    }
    None
}

/// Whether the numbers ascend, each above `low` and below `high`.
#[tactic(auto, unfolding(crate::specs::Numbered::ascends))]
pub fn ascend<T: Numbered>(items: &[T], low: u32, high: u32) -> bool
    ensures { result ≡ ascends T.number_of low high items.now }
{
    let mut before = low;
    for item in items {
        if item.number() <= before || item.number() >= high {
            return false;
        }
        before = item.number();
    }
    true
}
