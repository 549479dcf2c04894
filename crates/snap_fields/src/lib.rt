//! A world's bytes as plain fields: written and read, one to one.
#![tactic(auto)]

mod counts;
mod cursor;
mod entries;
mod fault;
mod fields;
mod glk;
mod glk_reading;
mod glk_writing;
mod item;
mod items;
mod laws;
mod put;
mod read;
mod reading;
mod write;
mod writing;

pub use fault::SnapFault;
pub use fields::{
    Fields, Numbers, Settings, SnapMachine, SnapRandom, SnapSetup, SnapStub, SnapWaiting, UndoState,
};
pub use glk::{
    SnapArea, SnapContent, SnapFile, SnapFileRef, SnapRequest, SnapStream, SnapTarget, SnapWindow,
};
pub use items::Items;
pub use laws::{begins_no_other, has_one_spelling, reads_each_spelling};
pub use read::read_fields;
pub use write::write_fields;
