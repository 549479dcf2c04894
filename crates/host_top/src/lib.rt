//! The whole program but for the streams and files of the system.
#![tactic(auto)]

mod check;
mod door_call;
mod drill;
mod folder;
mod init;
mod lending;
mod loan;
mod memory_door;
mod memory_outside;
mod once;
mod opening;
mod outside;
mod pack;
mod pipe;
mod player;
mod program;
mod refuse;
mod replay;
mod run;
mod say;
mod serve;
mod status;
mod stories;
mod story_file;

pub use door_call::{DoorCall, DoorCalls};
pub use loan::Loan;
pub use memory_door::MemoryDoor;
pub use memory_outside::MemoryOutside;
pub use outside::{Fetch, Outside};
pub use program::top;
pub use status::Status;
