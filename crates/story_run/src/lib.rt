//! A story, turn by turn: it runs until it waits for its player, and what it printed is a show.
#![tactic(auto)]

mod ends;
mod fields;
mod laws;
mod save;
mod setup;
mod stage;
mod step;
mod steps;
mod story;
mod turn;
mod world;

pub use fields::{StageFields, WorldFields};
pub use laws::{
    budgets_only_end, faults_are_numbered, glk_stays_valid, over_wants_nothing, turns_end,
    unwanted_leaves,
};
pub use setup::Setup;
pub use stage::Stage;
pub use steps::Steps;
pub use story::Story;
pub use world::World;
