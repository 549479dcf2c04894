//! The binary search.

ghost use Rattle.std.specs.Prelude.{◌≡◌, ◌≤◌, ◌<◌, ◌+◌, ◌-◌, ◌*◌, ◌^◌, ◌==◌, true, Ok, IfOk};
ghost use Rattle.vm_search.specs.Key.{is_search, compared};
ghost use Rattle.vm_search.specs.Linear.{structure_at};
ghost use Rattle.vm_search.specs.Ending.{search_of};
ghost use Rattle.vm_search.specs.Binary as spec;
ghost use Rattle.vm_search.specs.Binary.{binary_ends};

use crate::fault::SearchStop;
use crate::query::{Found, Query};
use std::cmp::Ordering;
use vm_memory::{MemFault, Memory};

/// Indexes from the low one up to the high one, without it.
#[derive(Clone, Copy, Debug, PartialEq, Eq)]
pub struct Interval {
    low: u32,
    high: u32,
}

impl Interval {
    fn is_empty(self) -> bool
        ensures value { result ≡ (self.low == self.high) }
    {
        self.low == self.high
    }

    /// The index in the middle.
    fn middle(self) -> u32
        requires { self.low < self.high }
        ensures value { result ≡ spec.middle self }
    {
        self.low + (self.high - self.low) / 2
    }

    /// The half in which a key is that compares so with the key in the middle.
    fn half(self, order: Ordering) -> Interval
        requires { self.low < self.high }
        ensures value { result ≡ spec.half self (Ok order) }
        ensures order { result.low ≤ result.high }
        ensures fewer { (result.high - result.low) * 2 ≤ self.high - self.low }
    {
        let middle = self.middle();
        if order == Ordering::Greater {
            Interval {
                low: middle + 1,
                high: self.high,
            }
        } else {
            Interval {
                low: self.low,
                high: middle,
            }
        }
    }
}

/// How the key that is sought compares with that of the structure in the middle.
fn order_in_middle(
    memory: &Memory<'_>,
    query: &Query,
    interval: Interval,
) -> Result<Ordering, MemFault>
    requires search { is_search query.now ≡ true }
    requires some { interval.low < interval.high }
    ensures value { result ≡ compared memory.now query.now
        (structure_at query.now (spec.middle interval)) }
{
    query.compare(memory, query.structure_at(interval.middle()))
}

/// The structure at which the halving of sorted structures meets the key that is sought: its
/// address, or its index with ReturnIndex; 0, or -1, where it meets none. Keys are unsigned
/// numbers, the most significant byte first (Glulx 3.1.3, "Searching").
///
/// BadSearch where the key's size is none; Spent exactly where more than `left` structures would be
/// looked at; Read at a key that isn't in memory, the sought one first.
pub fn binary(memory: &Memory<'_>, query: &Query) -> Result<Found, SearchStop>
    ensures value { result ≡ search_of query.now (binary_ends memory.now query.now) }
    // no more than the binary digits of the count
    ensures cost { IfOk result (λ found. 2 ^ found.looked ≤ 2 * query.now.count + 1) }
{
    query.check()?;
    let mut interval = Interval {
        low: 0,
        high: query.count,
    };
    let mut looked = 0;
    while !interval.is_empty() {
        if looked == query.left {
            return Err(SearchStop::Spent);
        }
        let order = order_in_middle(memory, query, interval)?;
        if order == Ordering::Equal {
            let answer = query.found_at(interval.middle());
            return Ok(Found {
                answer,
                looked: looked + 1,
            });
        }
        interval = interval.half(order);
        looked += 1;
    }
    let answer = query.failure();
    Ok(Found { answer, looked })
}
