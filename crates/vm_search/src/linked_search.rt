//! The linked search.

ghost use Rattle.std.specs.Prelude.{◌≡◌};
ghost use Rattle.vm_search.specs.Ending.{search_of};
ghost use Rattle.vm_search.specs.Linked.{linked_ends};

use crate::fault::SearchStop;
use crate::query::{Found, Query, STEPS};
use vm_memory::Memory;

/// The address of the first structure of the chain whose key equals the one that is sought, or 0.
/// The word at a structure's next offset is the address of the next, and 0 ends the chain. With
/// ZeroKeyTerminates a zero key is the last, after it was compared (Glulx 3.1.3, "Searching").
///
/// BadSearch where the key's size is none; Spent exactly where more than `left` structures would be
/// looked at; Read at a key, the sought one first, or a next place that isn't in memory.
pub fn linked(memory: &Memory<'_>, query: &Query) -> Result<Found, SearchStop>
    ensures value { result ≡ search_of query.now (linked_ends memory.now query.now) }
{
    query.check()?;
    let mut at = query.start;
    for looked in 0..STEPS {
        if at == 0 {
            let answer = 0;
            return Ok(Found { answer, looked });
        }
        if looked == query.left {
            return Err(SearchStop::Spent);
        }
        if let Some(found) = query.look(memory, at, looked + 1, at, 0)? {
            return Ok(found);
        }
        at = memory.read4(at.wrapping_add(query.next_offset))?;
    }
    Err(SearchStop::Spent)
}
