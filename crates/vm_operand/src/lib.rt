//! Instructions: opcodes and their operands, arithmetic and the conditions of branches.
#![tactic(auto)]

mod arithmetic;
mod branches;
mod code;
mod fault;
mod instruction;
mod kinds;
mod laws;
mod mode;
mod opcode;
mod operand;

pub use arithmetic::arith;
pub use branches::holds;
pub use code::{dest_in, load_in, opcode_in};
pub use fault::OpFault;
pub use instruction::{Instr, decode};
pub use laws::{decodes_what_is_spelled, spells_what_is_decoded};
pub use opcode::{Array, Branch, Flow, Math, Move, Op, Search, State, Stream, System, Values};
pub use operand::{Dest, Dests, Kind, Load, Loads};
