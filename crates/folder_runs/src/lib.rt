//! Runs of a host on one folder, each on what a stop left of the one before.
#![tactic(auto)]

mod laws;

pub use laws::{next_run_begins, next_run_goes_on, runs_compose};
