//! Saved states of a story: the few that undo keeps, and the range of memory that a restore spares.
#![tactic(auto)]

mod contents;
mod fits;
mod kept;
mod laws;
mod lists;
mod protection;
mod runs;
mod saved;
mod undo;

pub use contents::{cmem_read, cmem_write, is_contents};
pub use fits::{is_heap_over, is_memory_of, is_size};
pub use kept::{Contents, KeptState};
pub use laws::{
    gives_contents_back, gives_list_back, gives_memory_back, holds_limits, keeps_the_newest,
    tells_contents,
};
pub use lists::{Blocks, StackBytes};
pub use protection::protect;
pub use runs::RunsFault;
pub use saved::Saved;
pub use undo::{Kept, MAX_STATES, MAX_WEIGHT, Undo};
