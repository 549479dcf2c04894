//! One session's snapshot file as plain data, and every order of events that may happen to it.
#![tactic(auto)]

mod area;
mod disk;
mod event;
mod following;
mod law;
mod look;
mod state;
mod steps;

pub use area::NewArea;
pub use disk::{DiskCall, make_call};
pub use event::FileEvent;
pub use following::follow;
pub use law::{
    begins_by_rows, rows_are_told, stays_in_agreement, stays_open, stays_steady, warms_in_sixteen,
};
pub use look::outline_of;
pub use state::{FileStep, OpeningStage, PutStage, StoreState};
