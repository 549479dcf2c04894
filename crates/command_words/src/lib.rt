//! The words of the command line: what they ask for, and the texts of help.
#![tactic(auto)]

mod command;
mod command_line;
mod help;
mod numbers;
mod words;

pub use command::Command;
pub use help::{Topic, VERSION_TEXT, help_text};
pub use words::{Action, Serving, command_of};
