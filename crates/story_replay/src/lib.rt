//! The games of a journal, and what their players were shown, as texts.
#![tactic(auto)]

mod game;
mod gather;
mod laws;
mod parallel;
mod text;

pub use game::Game;
pub use gather::games;
pub use laws::holds_each_show;
pub use parallel::texts;
