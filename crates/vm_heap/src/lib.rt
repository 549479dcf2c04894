//! The memory allocation heap: blocks at the least addresses at which they fit.
#![tactic(auto)]

mod block;
mod fault;
mod free;
mod heap;
mod history;
mod malloc;

pub use block::{Block, MAX_SIZE, is_heap};
pub use fault::HeapFault;
pub use heap::Heap;
pub use history::{Call, held_after};
