//! The calls of a disk, as a disk in memory keeps them.

use std::alloc::Global;

/// A call that was made, and whether it answered Ok. Those that only look aren't told apart.
#[derive(Drop)]
pub enum Call {
    /// The size was asked, something was read, or a write past the room was refused.
    Look,
    /// Bytes were to be put at this place.
    Write {
        place: u64,
        piece: Vec<u8>,
        good: bool,
    },
    /// All that was written was to be made durable.
    Sync {
        good: bool,
    },
}
