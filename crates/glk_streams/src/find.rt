//! Where the object with a number stands.

ghost use Rattle.std.specs.Prelude.{◌≡◌, ◌<◌, length, remove, slice_index_or, slice_set};
ghost use Rattle.std.specs.Prelude.{None, Some, IfNone, IfSome};
ghost use Rattle.glk_numbers.specs.Numbered.{changed_at, found, without};
ghost use Rattle.glk_streams.specs.Streams as streams;

use crate::stream::Stream;
use glk_numbers::{Numbered, place_of};

/// Where the first value with this number is, and what is changed and left out there.
pub(crate) fn find<T: Numbered>(items: &[T], number: u32) -> Option<usize>
    ensures within { IfSome result (λ i. i < length items.now) }
    ensures none { IfNone result (found T.number_of items.now number ≡ None) }
    ensures some { IfSome result (λ i.
        (d : T) → found T.number_of items.now number ≡ Some (slice_index_or items.now i d)) }
    ensures changed { IfSome result (λ i.
        (v : T) → changed_at T.number_of (λ _. v) items.now number ≡ slice_set items.now i v) }
    ensures left { IfSome result
        (λ i. without T.number_of items.now number ≡ remove items.now i) }
    ensures nothing { IfNone result (without T.number_of items.now number ≡ items.now) }
{
    place_of(items, number)
}

/// The number of the window's stream, or 0.
#[tactic(auto, unfolding(crate::specs::Streams::stream_of_window))]
pub(crate) fn stream_of_window(items: &[Stream], win: u32) -> u32
    ensures value { result ≡ streams.stream_of_window items.now win }
{
    for stream in items {
        if stream.target.is_of_window(win) {
            return stream.number;
        }
    }
    0
}
