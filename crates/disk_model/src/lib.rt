//! Disks that may fail and stop at any call: in memory, in a fixed room of bytes, and as plain data.
#![tactic(auto)]

mod call;
mod disk;
mod flat;
mod landed;
mod memory;
mod note;
mod plain;
mod stop;
mod through;

pub use call::Call;
pub use disk::{Disk, Failed};
pub use flat::FlatDisk;
pub use memory::MemDisk;
pub use plain::PlainDisk;
pub use through::write_through;
