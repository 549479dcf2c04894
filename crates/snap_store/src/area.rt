//! What is given of an area (own).

use story_text::Bytes;

/// A snapshot: how many inputs were applied to its world, and its bytes.
#[derive(Debug, Drop)]
pub struct Area {
    pub count: u32,
    pub bytes: Bytes,
}
