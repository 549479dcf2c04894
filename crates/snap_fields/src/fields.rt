//! What a world's bytes say, item by item (own).

use crate::glk::{SnapFile, SnapFileRef, SnapStream, SnapWindow};
use crate::items::Items;
use vm_heap::Block;

/// What turns go by: the seed of the story's random words, the present screen in characters, and
/// the budget of a turn in ticks.
#[derive(Clone, Copy)]
pub struct SnapSetup {
    pub seed: u64,
    pub cols: u8,
    pub rows: u8,
    pub budget: u64,
}

/// Where the story stands. `memory` is the contents of a save's memory chunk.
#[derive(Drop)]
pub struct SnapMachine {
    pub pc: u32,
    pub frame: u32,
    pub memory: Items<u8>,
    pub stack: Items<u8>,
    pub heap_start: u32,
    pub heap: Items<Block>,
}

/// A state that undo keeps. `contents` is the contents of a save's memory chunk.
#[derive(Drop)]
pub struct UndoState {
    pub contents: Items<u8>,
    pub stack: Items<u8>,
    pub heap_start: u32,
    pub heap: Items<Block>,
}

/// The I/O system and its rock, the string table, and the memory that `restore` protects.
#[derive(Clone, Copy)]
pub struct Settings {
    pub mode: u32,
    pub rock: u32,
    pub string_table: u32,
    pub protect_start: u32,
    pub protect_length: u32,
}

/// The random words: what they began with, their stream, how many were taken of it, and how often
/// they were started afresh, modulo 2^64.
#[derive(Clone, Copy)]
pub struct SnapRandom {
    pub start: u64,
    pub stream: u64,
    pub taken: u64,
    pub fresh: u64,
}

/// Where a result is stored: a call stub's type and address.
#[derive(Clone, Copy)]
pub struct SnapStub {
    pub kind: u32,
    pub address: u32,
}

/// What the story waits for, or how it ended.
#[derive(Clone, Copy)]
pub enum SnapWaiting {
    Quit,
    Fault(u8),
    Select {
        reference: u32,
        store: SnapStub,
    },
    Prompt {
        usage: u32,
        mode: u32,
        rock: u32,
        store: SnapStub,
    },
}

/// The next number of each class, the root window and the current stream, each 0 for none.
#[derive(Clone, Copy)]
pub struct Numbers {
    pub window: u32,
    pub stream: u32,
    pub fileref: u32,
    pub root: u32,
    pub current: u32,
}

/// What a world's bytes say.
#[derive(Drop)]
pub struct Fields {
    pub setup: SnapSetup,
    pub machine: SnapMachine,
    pub settings: Settings,
    pub random: SnapRandom,
    /// The undo states, the oldest first.
    pub undo: Items<UndoState>,
    pub waiting: SnapWaiting,
    pub numbers: Numbers,
    pub windows: Items<SnapWindow>,
    pub streams: Items<SnapStream>,
    pub filerefs: Items<SnapFileRef>,
    pub files: Items<SnapFile>,
    pub show: Items<u8>,
}
