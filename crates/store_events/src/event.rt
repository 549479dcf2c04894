//! What may happen to a session's snapshot file (own).

use story_text::Bytes;

/// An event. One that isn't enabled changes nothing.
#[derive(Drop)]
pub enum FileEvent {
    /// The put of a snapshot begins: that of the OPEN row at this place, after so many inputs.
    Keep {
        place: u64,
        count: u32,
        bytes: Bytes,
    },
    /// The disk makes its next call. Where that isn't good the disk reads as `reads` from then on.
    Call {
        good: bool,
        reads: Bytes,
    },
    /// The host stops, and the disk holds this image.
    Stop {
        image: Bytes,
    },
    /// An opening begins.
    Recover,
}
