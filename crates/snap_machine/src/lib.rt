//! A machine's part of a world's bytes, both ways.
#![tactic(auto)]

mod fields;
mod laws;
mod parts;
mod undo;

pub use fields::machine_fields_of;
pub use laws::gives_back;
pub use parts::{MachineParts, parts_of, put_back, store_of};
