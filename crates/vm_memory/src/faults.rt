//! The faults of a story by their numbers (docs/FORMATS.md, "Faults of a story").

pub const BAD_READ: u8 = 1;

pub const BAD_WRITE: u8 = 2;

pub const STACK_OVERFLOW: u8 = 3;

pub const STACK_UNDERFLOW: u8 = 4;

pub const BAD_LOCAL: u8 = 5;

pub const BAD_OPCODE: u8 = 6;

pub const BAD_MODE: u8 = 7;

pub const DIVISION_BY_ZERO: u8 = 8;

pub const DIVISION_OVERFLOW: u8 = 9;

pub const BAD_SEARCH: u8 = 10;

pub const BAD_BLOCK: u8 = 11;

pub const BAD_FUNCTION: u8 = 12;

pub const BAD_STUB: u8 = 13;

pub const BAD_TOKEN: u8 = 14;

pub const BAD_STRING: u8 = 15;

pub const NO_TABLE: u8 = 16;

pub const UNSUPPORTED_OPCODE: u8 = 17;

pub const DEBUG_TRAP: u8 = 18;

pub const BAD_SIZE: u8 = 19;

pub const BAD_SELECTOR: u8 = 20;

pub const BAD_OBJECT: u8 = 21;

pub const BAD_ARGUMENT: u8 = 22;

pub const TOO_MUCH_OUTPUT: u8 = 23;

pub const BUDGET_SPENT: u8 = 24;
