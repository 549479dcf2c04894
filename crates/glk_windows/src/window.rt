//! What a window is (Glk 0.7.5, "Windows").

use crate::text::{Codes, Runs};

/// A rectangle of the screen, in characters. `x` and `y` are its upper left corner.
#[derive(Clone, Copy, Debug, PartialEq, Eq)]
pub struct Area {
    pub x: u32,
    pub y: u32,
    pub w: u32,
    pub h: u32,
}

/// How two windows divide a rectangle. The second is the one at the method's side; `key` is the
/// window that a fixed size is measured in, 0 for none.
#[derive(Clone, Copy, Debug, PartialEq, Eq)]
pub struct Pair {
    pub method: u32,
    pub size: u32,
    pub key: u32,
    pub first: u32,
    pub second: u32,
}

/// What was printed since the last clearing, and whether there was one in this turn.
#[derive(Drop)]
pub struct Buffer {
    pub cleared: bool,
    pub runs: Runs,
}

/// `h` rows of `w` cells, one row after the other, and a cursor.
#[derive(Drop)]
pub struct Grid {
    pub w: u32,
    pub h: u32,
    pub x: u32,
    pub y: u32,
    pub cells: Codes,
}

/// What a window holds, by its type.
#[derive(Drop)]
pub enum Content {
    Pair(Pair),
    Blank,
    Buffer(Buffer),
    Grid(Grid),
}

/// A window. `stream` is the number of its own stream, `echo` that of the stream to which its
/// output goes too, and `parent` that of the pair above it, each 0 for none.
#[derive(Drop)]
pub struct Window {
    pub number: u32,
    pub rock: u32,
    pub stream: u32,
    pub echo: u32,
    pub parent: u32,
    pub area: Area,
    pub content: Content,
}
