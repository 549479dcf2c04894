//! What a player sees of a turn, as lines.
#![tactic(auto)]

mod lines;
mod making;
mod show;
mod words;

pub use lines::write_show;
pub use making::show_of;
pub use show::{End, Ends, Part, Parts, Place, Places, Show};
