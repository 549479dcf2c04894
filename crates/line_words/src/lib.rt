//! Requests and replies as lines.
#![tactic(auto)]

mod fault;
mod field;
mod key;
mod laws;
mod number;
mod play;
mod read;
mod reply;
mod request;

pub use fault::LineFault;
pub use field::is_code;
pub use key::{Key, is_key, is_watch_word};
pub use laws::{
    prints_spellings, reads_each_play, reads_each_request, reads_plays_only, reads_requests_only,
};
pub use play::read_play;
pub use read::read_request;
pub use reply::{No, Reply, push_show, write_reply};
pub use request::Request;
pub use story_text::Input as Play;
pub use story_text::keycode::is_terminator;
