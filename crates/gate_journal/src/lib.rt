//! The journal that keeps each accepted command on a disk, through any stop.
#![tactic(auto)]

mod begin;
mod command;
mod entry;
mod fault;
mod gate;
mod history;
mod journal;
mod laws;
mod load;
mod look;
mod mark;
mod migrate;
mod moments;
mod parse;
mod payload;
mod room;
mod row;
mod seats;
mod settle;
mod stop;

pub use begin::init;
pub use command::Command;
pub use entry::Entry;
pub use fault::{DiskFault, InitFault, JournalFault};
pub use journal::Journal;
pub use laws::{
    ends_within, has_one_corrupt_place, has_one_reading, kept_from_then, opening_finds,
    spells_one_list, spells_or_is_corrupt, stops_in_turn,
};
pub use look::scan;
pub use parse::{Rows, read_rows, row_behind};
pub use room::row_bytes;
pub use row::Row;
pub use stop::stop_and_open;
