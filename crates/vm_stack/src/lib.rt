//! The stack of a Glulx machine: call frames, their locals and values, and call stubs, as bytes.
#![tactic(auto)]

mod bytes;
mod fault;
mod frame;
mod head;
mod locals;
mod plain;
mod saved;
mod stack;
mod stub;
mod values;

pub use fault::StackFault;
pub use saved::is_chain;
pub use stack::{MAX_STACK, Stack};
pub use stub::Stub;
