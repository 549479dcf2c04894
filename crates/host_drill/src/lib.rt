//! The drill: eight sessions of one story, each played by a script that a number stands for.
#![tactic(auto)]

mod link;
mod opening;
mod session;
mod text;

pub use text::drill;
