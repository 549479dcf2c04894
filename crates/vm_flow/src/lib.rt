//! Calls, returns, catch and throw of a Glulx machine, over a memory and a stack.
#![tactic(auto)]

mod arguments;
mod calls;
mod continuation;
mod format;
mod returns;
mod stop;

pub use calls::{call, tail_call};
pub use continuation::{catch, throw};
pub use returns::give_back;
pub use stop::FlowStop;
