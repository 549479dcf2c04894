//! Values by number, as windows, streams and file references are (Glk 0.7.5, "Opaque Objects").
#![tactic(auto)]

mod laws;
mod numbered;

pub use laws::next_is_least;
pub use numbered::{MAX_NUMBER, Numbered, ascend, is_live, next_above, place_of};
