//! The pieces of strings, and places between them.

/// A place in a string. Kind 0 is before the object's first byte; else the kind is the object's
/// type E0, E1 or E2, with the address of a byte and, in E1, a bit of it, the low one first. Inside
/// a node of characters (03 or 05) the place is where the path to it begins, and the bit is 8
/// greater for each character that was taken (own).
#[derive(Clone, Copy, Debug, PartialEq, Eq)]
pub struct Cursor {
    pub kind: u32,
    pub at: u32,
    pub bit: u32,
}

/// A piece of a string: a character; an object that it refers to, with the address of its arguments
/// and their count; or its end (Glulx 3.1.3, "Strings").
#[derive(Clone, Copy, Debug, PartialEq, Eq)]
pub enum Piece {
    Char(u32),
    Call { at: u32, args_at: u32, args: u32 },
    End,
}
