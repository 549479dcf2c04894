//! A world's bytes, and worlds from bytes, one to one.
#![tactic(auto)]

mod bytes;
mod fields;
mod laws;
mod world;

pub use bytes::{from_bytes, to_bytes};
pub use laws::{gives_back, has_one_spelling, has_one_world};
pub use snap_fields::SnapFault;
