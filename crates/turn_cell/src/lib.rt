//! Cells: a value that threads have in turn, with one legal history of which each pass knows a
//! beginning.
#![tactic(auto)]

mod cell;
mod pass;
mod steps;
mod told;
mod turn;
mod view;

pub use cell::Cell;
pub use pass::{Known, Pass};
pub use told::Told;
pub use view::{Stage, View};
