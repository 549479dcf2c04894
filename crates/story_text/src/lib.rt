//! Texts as lists of characters, and their escaped spelling in lines.
#![tactic(auto)]

mod bytes;
mod fault;
mod input;
pub mod keycode;
mod laws;
mod read;
mod text;
mod write;

pub use bytes::Bytes;
pub use fault::TextFault;
pub use input::Input;
pub use laws::{reads_each_spelling, reads_spellings_only, reads_visible_only, round_trip};
pub use read::{read_escaped, text_of_bytes};
pub use text::{Text, to_utf8};
pub use write::write_escaped;
