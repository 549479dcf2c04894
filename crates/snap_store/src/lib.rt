//! The two areas of one session's snapshot file, each whole or closed through any stop.
#![tactic(auto)]

mod area;
mod begin;
mod fault;
mod find;
mod laws;
mod outline;
mod side;
mod slot;
mod steps;
mod store;

pub use area::Area;
pub use begin::make;
pub use fault::{DiskFault, NewestFault};
pub use laws::keeps_areas_of_before_closed;
pub use outline::{HEADER, Head, MAX_SNAPSHOT, Outline, PAGE};
pub use side::{GATE_A, GATE_B, Side};
pub use slot::{Slot, Slots};
pub use steps::head_bytes;
pub use store::Store;
