//! Save files: a story's state as a form of chunks, written and read.
#![tactic(auto)]

mod fault;
mod form;
mod heap;
mod laws;
mod memory;
mod reader;
mod writer;

pub use fault::SaveFault;
pub use laws::{
    gives_state_back, reads_blocks_in_any_order, reads_first_of_each_name, reads_what_is_printed,
    restores_pieces, restores_what_is_written, takes_stacks_of_frames,
};
pub use memory::first_memory;
pub use reader::read;
pub use writer::write;
