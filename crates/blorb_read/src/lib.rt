//! The story inside a container.
#![tactic(auto)]

mod container;
mod fault;
mod laws;

pub use container::{Span, find_story};
pub use fault::BlorbFault;
pub use laws::finds_the_first_entry;
