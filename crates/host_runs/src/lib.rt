//! What `pipe` and `serve` leave of a folder is a run, of which any number compose.
#![tactic(auto)]

mod laws;

pub use laws::{links_leave, pipe_is_certain, pipe_leaves, refusal_leaves, shows_are_kept};
