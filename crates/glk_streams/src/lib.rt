//! Streams, file references and the files of a session.
#![tactic(auto)]

mod coding;
mod fault;
mod file;
mod fileref;
mod find;
mod input;
mod laws;
mod name;
mod opening;
mod output;
mod position;
mod reading;
mod stream;
mod streams;
mod valid;

pub use coding::{Coding, Reading};
pub use fault::StreamStop;
pub use file::{Contents, File, MAX_FILE_BYTES, MAX_FILES};
pub use fileref::{FileRef, MAX_REFS};
pub use laws::{reads_back, round_trip, stays_valid};
pub use name::{clean_name, temporary_name};
pub use opening::Counts;
pub use stream::{MAX_STREAMS, Stream, Target};
pub use streams::Streams;
