//! Windows, streams, file references and files (own).

use crate::items::Items;

/// A rectangle of the screen, in characters.
#[derive(Clone, Copy)]
pub struct SnapArea {
    pub x: u32,
    pub y: u32,
    pub w: u32,
    pub h: u32,
}

/// What a window holds, by its type. A grid's cells are the codes of its rows.
#[derive(Drop)]
pub enum SnapContent {
    Pair {
        method: u32,
        size: u32,
        key: u32,
        first: u32,
        second: u32,
    },
    Blank,
    Buffer,
    Grid {
        x: u32,
        y: u32,
        cells: Items<u32>,
    },
}

/// What a window asks for.
#[derive(Drop)]
pub enum SnapRequest {
    Nothing,
    Line {
        unicode: bool,
        buffer: u32,
        maximum: u32,
        initial: u32,
        echo: bool,
        terminators: Items<u32>,
    },
    Char {
        unicode: bool,
    },
}

/// A window's number and rock, the streams that it has and echoes to, and its parent, each 0 for
/// none; `echo` and `terminators` are its settings for later lines.
#[derive(Drop)]
pub struct SnapWindow {
    pub number: u32,
    pub rock: u32,
    pub stream: u32,
    pub echo_stream: u32,
    pub parent: u32,
    pub echo: bool,
    pub terminators: Items<u32>,
    pub area: SnapArea,
    pub content: SnapContent,
    pub request: SnapRequest,
}

/// Where a stream's characters go. A window's stream has no more to it.
#[derive(Drop)]
pub enum SnapTarget {
    Window,
    Memory { buffer: u32, length: u32 },
    File { usage: u32, name: Items<u32> },
}

/// A stream.
#[derive(Drop)]
pub struct SnapStream {
    pub number: u32,
    pub rock: u32,
    pub mode: u32,
    pub style: u32,
    pub read: u32,
    pub written: u32,
    pub position: u32,
    pub unicode: bool,
    pub target: SnapTarget,
}

/// A file reference. A name is the codes of its characters.
#[derive(Drop)]
pub struct SnapFileRef {
    pub number: u32,
    pub usage: u32,
    pub rock: u32,
    pub name: Items<u32>,
}

/// A file.
#[derive(Drop)]
pub struct SnapFile {
    pub usage: u32,
    pub name: Items<u32>,
    pub bytes: Items<u8>,
}
