//! What sessions answer on a packed journal.
#![tactic(auto)]

mod laws;

pub use laws::{answers_as_unused, answers_in_use, keeps_games};
