//! One session's snapshots: when they are due, and how a session warms from them.
#![tactic(auto)]

mod due;
mod game;
mod laws;
mod missed;
mod saves;
mod snapshot;
mod warming;

pub use due::falls_due;
pub use game::inputs_of;
pub use laws::{
    images_stay_agreed, is_within_sixteen, more_commands_stay_agreed, new_opens_stay_agreed,
    stays_kept_up, wanted_inputs_are_turns,
};
pub use missed::Missed;
pub use saves::Saves;
