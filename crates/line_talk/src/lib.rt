//! Conversations line by line: one side reads lines from a link and answers each.
#![tactic(auto)]

mod answers;
mod both;
mod ended;
mod hear;
mod line_buffer;
mod link;
mod memory;
mod memory_link;
mod sink;
mod source;
mod talk;
mod write;

pub use answers::Answers;
pub use both::{Both, converse_between};
pub use ended::Ended;
pub use link::Link;
pub use memory::{MemorySink, MemorySource};
pub use memory_link::MemoryLink;
pub use sink::{Put, Sink, Stop};
pub use source::{Got, Source};
pub use talk::converse;
pub use write::write_all;
