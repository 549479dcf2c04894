//! The system's files, standard streams and loopback TCP: what is trusted, since nothing is told of
//! their content.
mod disk;
mod files;
mod greeting;
mod held;
mod log;
mod misuse;
mod parting;
mod patience;
mod reading;
mod tcp;
mod trouble;
mod waiting;
mod writing;

pub use files::SystemFiles;
pub use log::Log;
pub use misuse::{Misuse, misuse_of};
pub use reading::Reading;
pub use waiting::Waiting;
pub use writing::Writing;
