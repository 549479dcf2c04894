//! The refusals among replies, counted as the replies were written.
#![tactic(auto)]

mod laws;
mod tally;

pub use laws::{refusals_are_found, shows_have_show_lines};
pub use tally::{Tally, tally_of};
