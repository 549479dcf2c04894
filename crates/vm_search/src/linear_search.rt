//! The linear search.

ghost use Rattle.std.specs.Prelude.{◌≡◌, ◌<◌, ◌+◌, true};
ghost use Rattle.vm_search.specs.Key.{is_search};
ghost use Rattle.vm_search.specs.Ending.{search_of, Looks};
ghost use Rattle.vm_search.specs.Linear.{linear_ends, at_index};

use crate::fault::SearchStop;
use crate::query::{Found, Query, STEPS};
use vm_memory::{MemFault, Memory};

/// What the structure with the index tells.
fn look_at_index(memory: &Memory<'_>, query: &Query, index: u64) -> Result<Option<Found>, MemFault>
    requires search { is_search query.now ≡ true }
    requires within { index < STEPS }
    ensures value { Looks (index + 1) (at_index memory.now query.now index) result }
{
    let number = index as u32;
    let at = query.structure_at(number);
    let answer = query.found_at(number);
    query.look(memory, at, index + 1, answer, query.failure())
}

/// The first structure whose key equals the one that is sought: its address, or its index with
/// ReturnIndex; 0, or -1, where there is none. A count of -1 is no limit. With ZeroKeyTerminates a
/// zero key is the last, after it was compared (Glulx 3.1.3, "Searching").
///
/// BadSearch where the key's size is none; Spent exactly where more than `left` structures would be
/// looked at; Read at a key that isn't in memory, the sought one first.
pub fn linear(memory: &Memory<'_>, query: &Query) -> Result<Found, SearchStop>
    ensures value { result ≡ search_of query.now (linear_ends memory.now query.now) }
{
    query.check()?;
    for looked in 0..STEPS {
        if query.is_past(looked) {
            let answer = query.failure();
            return Ok(Found { answer, looked });
        }
        if looked == query.left {
            return Err(SearchStop::Spent);
        }
        if let Some(found) = look_at_index(memory, query, looked)? {
            return Ok(found);
        }
    }
    Err(SearchStop::Spent)
}
