//! Every order of events of a host, as plain data.
#![tactic(auto)]

mod deciding;
mod event;
mod files;
mod following;
mod history;
mod items;
mod journal;
mod keeping;
mod law;
mod opening;
mod rows;
mod sessions;
mod state;
mod steps;
mod turn;
mod whole;

pub use event::{Images, JournalEvent};
pub use following::{follow, follow_journal};
pub use items::Items;
pub use law::definitions;
pub use state::{Given, JournalHost, Step};
pub use turn::{Phase, Session, Turn};
pub use whole::{Event, HostState};
