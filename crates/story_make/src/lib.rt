//! Workloads: the Echo story, and the scripts of requests that numbers stand for.
#![tactic(auto)]

mod echo;
mod laws;
mod line;
mod place;
mod scripts;

pub use echo::echo_story;
pub use laws::{asks_in_order, has_a_line_each_turn, is_read_as_requests, takes_a_word_a_turn};
pub use scripts::script;
