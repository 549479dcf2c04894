//! Operands: loads and stores, and their lists in an instruction.

/// What an operand is for.
#[derive(Clone, Copy, Debug, PartialEq, Eq)]
pub enum Kind {
    Load,
    Store,
}

/// Where a value comes from: the value itself, an address of memory, an offset among the locals, or
/// the stack.
#[derive(Clone, Copy, Debug, PartialEq, Eq)]
pub enum Load {
    Value(u32),
    At(u32),
    Local(u32),
    Pop,
}

/// Where a value goes: nowhere, an address of memory, an offset among the locals, or the stack.
#[derive(Clone, Copy, Debug, PartialEq, Eq)]
pub enum Dest {
    Discard,
    At(u32),
    Local(u32),
    Push,
}

/// The loads of an instruction; the items from the count on are Value(0).
#[derive(Clone, Copy, Debug, PartialEq, Eq)]
pub struct Loads {
    pub count: u32,
    pub items: [Load; 8],
}

/// The stores of an instruction; the items from the count on are Discard.
#[derive(Clone, Copy, Debug, PartialEq, Eq)]
pub struct Dests {
    pub count: u32,
    pub items: [Dest; 2],
}
