//! A journal without the rows of sessions that are free and of games that are over.
#![tactic(auto)]

mod fault;
mod kept;
mod later;
mod laws;
mod packing;
mod written;

pub use fault::{PackFault, Packed};
pub use kept::live;
pub use laws::{are_since_open, is_rebuilt, is_spelled, keeps_moves};
pub use packing::pack;
