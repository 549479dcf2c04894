//! Glk calls by their selectors.
#![tactic(auto)]

mod arguments;
mod base;
mod called;
mod case;
mod dispatch;
mod events;
mod fault;
mod fields;
mod filerefs;
mod glk;
mod laws;
mod opening;
mod output;
mod reference;
mod selector;
mod streams;
mod style;
mod waiting;
mod windows;

pub use base::BaseCall;
pub use called::Called;
pub use case::CaseCall;
pub use dispatch::call;
pub use events::EventCall;
pub use filerefs::FileRefCall;
pub use glk::{Glk, Prompt};
pub use laws::{
    calls_keep_valid, entries_follow_windows, sizes_change_the_screen, streams_follow_windows,
};
pub use output::{MAX_PRINTED, OutputCall, put_code};
pub use selector::Call;
pub use streams::{StreamCall, get_code, pass_ahead, position};
pub use style::StyleCall;
pub use waiting::answer;
pub use windows::WindowCall;
