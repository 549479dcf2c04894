//! A session looked at by its spectators, whom a word lets in that lets nobody play.
#![tactic(auto)]

mod shows;
mod spectator;
mod word;

pub use spectator::watch;
pub use word::word_of;
