//! The memory of a story: bytes, of which those from RAMSTART on can be written.
#![tactic(auto)]

mod access;
mod changes;
mod code;
mod fault;
pub mod faults;
mod laid;
mod memory;
mod pages;
mod ram;
mod table;

pub use fault::{MemFault, MemStop, Trap};
pub use memory::{MAX_SIZE, Memory};
