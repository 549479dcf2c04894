//! A host of many sessions, each in a cell of its own, and links whose lines are answered in order.
#![tactic(auto)]

mod answer;
mod crew;
mod desks;
mod door;
mod end;
mod fault;
mod host;
mod join;
mod mark;
mod open;
mod pause;
mod read;
mod request;
mod serve;
mod shift;
mod speaker;
mod split;
mod turn;
mod work;
mod worked;

pub use door::{Door, Next};
pub use fault::OpenFault;
pub use host::{Host, Passes};
pub use line_talk::Ended as Served;
pub use mark::Mark;
pub use pause::{NoPause, Pause};
pub use worked::Worked;
