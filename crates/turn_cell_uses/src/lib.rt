//! Callers of cells: two threads on one log, a desk in a cell that has a pass of another cell,
//! and events that own memory.
#![tactic(auto)]

mod answer;
mod book;
mod crew;
mod desk;
mod desks;
mod link;
mod log;
mod notes;
mod tallies;
mod tally;
mod two_threads;

pub use answer::Answer;
pub use book::{Book, Disk};
pub use crew::served_by_two;
pub use desk::Desk;
pub use desks::{open_desk, request};
pub use link::{serve, turn};
pub use log::{Log, Note};
pub use notes::{add, add_times, end};
pub use tallies::accept;
pub use tally::{Event, Tally};
pub use two_threads::add_both;
