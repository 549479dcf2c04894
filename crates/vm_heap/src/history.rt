//! Calls of a story on its heap, and what it then holds.

ghost use Rattle.std.specs.Prelude.{◌≡◌, ◌≤◌, ◌<◌, AllPairs, IfOk};
ghost use Rattle.vm_heap.specs.History.{holding_after_calls, holding_after_call, at_first};
ghost use Rattle.vm_heap.specs.History.{AreApart};

use crate::block::{Block, MAX_SIZE};
use crate::heap::Heap;
use std::alloc::{AllocError, Global};

/// A call of malloc with a size in bytes, or of mfree with an address.
#[derive(Clone, Copy, Debug, PartialEq, Eq)]
pub enum Call {
    Malloc(u32),
    Free(u32),
}

/// Plays a call on the heap, and keeps the list of what is held.
fn play(heap: &mut Heap, held: &mut Vec<Block>, call: Call, end: u32) -> Result<(), AllocError>
    requires start { 0 < end }
    requires limit { end ≤ MAX_SIZE }
    ensures ok { IfOk result (λ done.
        holding_after_call end call (record { heap = heap.old; held = held.old.items })
        ≡ record { heap = heap.new; held = held.new.items }) }
{
    match call {
        Call::Malloc(0) => {}
        Call::Malloc(size) => {
            if let Some(at) = heap.malloc(size, end)? {
                held.push(Block { at, length: size })?;
            }
        }
        Call::Free(at) => {
            if let Ok(()) = heap.free(at) {
                held.retain(|block| block.at != at);
            }
        }
    }
    Ok(())
}

/// The blocks that these calls on a new heap hand out and don't free again, in the order in which
/// they were handed out; memory ends at `end` before the first. No two of them have an address in
/// common, whatever the calls. A malloc of 0 hands out nothing.
pub fn held_after(alloc: Global, calls: &[Call], end: u32) -> Result<Vec<Block>, AllocError>
    requires start { 0 < end }
    requires limit { end ≤ MAX_SIZE }
    ensures value { IfOk result
        (λ held. held.items ≡ (holding_after_calls end calls.now at_first).held) }
    ensures apart { IfOk result (λ held. AllPairs AreApart held.items) }
{
    let mut heap = Heap::new(alloc);
    let mut held = Vec::new(alloc);
    for call in calls {
        play(&mut heap, &mut held, *call, end)?;
    }
    Ok(held)
}
