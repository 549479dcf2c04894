//! A session as an automaton: what each request is answered, and what it makes the session accept.
#![tactic(auto)]

mod checks;
mod commands;
mod decision;
mod entry;
mod history;
mod laws;
mod refusal;
mod same;
mod sessions;
mod world;

pub use checks::{is_fresh, is_other_story, session_of};
pub use commands::{Commands, copies_of};
pub use decision::{Decision, command_of, decide, shown_number};
pub use entry::{Entry, Outcome};
pub use history::{count, game_of, is_in_use, is_open, story_at};
pub use laws::{answers_alike, decides_alike, is_isolated, repeats_change_nothing, turns_alike};
pub use refusal::{plain_refusal, refusal_in};
pub use sessions::{Sessions, with_budget};
pub use world::{play_on, replay, turn_on, turned, world_of};
