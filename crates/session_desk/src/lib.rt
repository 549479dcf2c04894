//! Sessions kept warm over one journal, each from its snapshots: a sound one answers as one that is
//! played from the start for each request.
#![tactic(auto)]

mod desk;
mod game;
mod held;
mod laws;
mod refused;
mod rows;
mod turned;
mod verdict;

pub use desk::Desk;
pub use laws::{
    beginnings_stay_agreed, is_cold_alone, journals_fit, reads_in_range, refuses_alike,
    shows_again, shows_fresh, stays_warm, world_is_needed,
};
pub use refused::Refused;
pub use turned::Turned;
pub use verdict::Verdict;
