//! Opcodes, by families, each of chapters of the dictionary.

ghost use Rattle.std.specs.Prelude.{◌≡◌, Some, IfSome};
ghost use Rattle.vm_operand.specs.Opcode.{opcode_number, op_of};
ghost use Rattle.vm_operand.specs.declared.opcode.Op.{Op};

/// What an instruction does (Glulx 3.1.3, "Dictionary of Opcodes").
#[derive(Clone, Copy, Debug, PartialEq, Eq)]
pub enum Op {
    Math(Math),
    Branch(Branch),
    Flow(Flow),
    Move(Move),
    Array(Array),
    Values(Values),
    Stream(Stream),
    State(State),
    System(System),
    Search(Search),
}

/// Arithmetic (Glulx 3.1.3, "Integer Math").
#[derive(Clone, Copy, Debug, PartialEq, Eq)]
pub enum Math {
    Add,
    Sub,
    Mul,
    Div,
    Mod,
    Neg,
    Bitand,
    Bitor,
    Bitxor,
    Bitnot,
    Shiftl,
    Sshiftr,
    Ushiftr,
}

/// Branches ("Branches").
#[derive(Clone, Copy, Debug, PartialEq, Eq)]
pub enum Branch {
    Jump,
    Jz,
    Jnz,
    Jeq,
    Jne,
    Jlt,
    Jge,
    Jgt,
    Jle,
    Jltu,
    Jgeu,
    Jgtu,
    Jleu,
    Jumpabs,
}

/// Calls, returns and continuations ("Functions", "Continuations").
#[derive(Clone, Copy, Debug, PartialEq, Eq)]
pub enum Flow {
    Call,
    Return,
    Catch,
    Throw,
    Tailcall,
    Callf,
    Callfi,
    Callfii,
    Callfiii,
}

/// Copies and sign extensions ("Moving Data").
#[derive(Clone, Copy, Debug, PartialEq, Eq)]
pub enum Move {
    Copy,
    Copys,
    Copyb,
    Sexs,
    Sexb,
}

/// Elements of arrays ("Array Data").
#[derive(Clone, Copy, Debug, PartialEq, Eq)]
pub enum Array {
    Aload,
    Aloads,
    Aloadb,
    Aloadbit,
    Astore,
    Astores,
    Astoreb,
    Astorebit,
}

/// Values on the stack ("The Stack").
#[derive(Clone, Copy, Debug, PartialEq, Eq)]
pub enum Values {
    Stkcount,
    Stkpeek,
    Stkswap,
    Stkroll,
    Stkcopy,
}

/// Output, its string table and its I/O system ("Output").
#[derive(Clone, Copy, Debug, PartialEq, Eq)]
pub enum Stream {
    Streamchar,
    Streamnum,
    Streamstr,
    Streamunichar,
    Getstringtbl,
    Setstringtbl,
    Getiosys,
    Setiosys,
}

/// The game's state and its saved ones ("Game State").
#[derive(Clone, Copy, Debug, PartialEq, Eq)]
pub enum State {
    Quit,
    Verify,
    Restart,
    Save,
    Restore,
    Saveundo,
    Restoreundo,
    Protect,
    Hasundo,
    Discardundo,
}

/// Memory's size, random numbers, acceleration and the rest ("Memory Map", "Random Number
/// Generator", "Accelerated Functions", "Miscellaneous").
#[derive(Clone, Copy, Debug, PartialEq, Eq)]
pub enum System {
    Nop,
    Gestalt,
    Debugtrap,
    Getmemsize,
    Setmemsize,
    Random,
    Setrandom,
    Glk,
    Accelfunc,
    Accelparam,
}

/// Searches, blocks and the heap ("Searching", "Block Copy and Clear", "Memory Allocation
/// Heap").
#[derive(Clone, Copy, Debug, PartialEq, Eq)]
pub enum Search {
    Linearsearch,
    Binarysearch,
    Linkedsearch,
    Mzero,
    Mcopy,
    Malloc,
    Mfree,
}

/// The row of the table with this number.
#[inline(always)]
#[tactic(auto, unfolding(crate::specs::Opcode::op_of, crate::specs::Opcode::opcodes))]
fn lookup(number: u32) -> Option<Op>
    ensures value { result ≡ op_of number }
{
    let op = match number {
        0x00 => Op::System(System::Nop),
        0x10 => Op::Math(Math::Add),
        0x11 => Op::Math(Math::Sub),
        0x12 => Op::Math(Math::Mul),
        0x13 => Op::Math(Math::Div),
        0x14 => Op::Math(Math::Mod),
        0x15 => Op::Math(Math::Neg),
        0x18 => Op::Math(Math::Bitand),
        0x19 => Op::Math(Math::Bitor),
        0x1A => Op::Math(Math::Bitxor),
        0x1B => Op::Math(Math::Bitnot),
        0x1C => Op::Math(Math::Shiftl),
        0x1D => Op::Math(Math::Sshiftr),
        0x1E => Op::Math(Math::Ushiftr),
        0x20 => Op::Branch(Branch::Jump),
        0x22 => Op::Branch(Branch::Jz),
        0x23 => Op::Branch(Branch::Jnz),
        0x24 => Op::Branch(Branch::Jeq),
        0x25 => Op::Branch(Branch::Jne),
        0x26 => Op::Branch(Branch::Jlt),
        0x27 => Op::Branch(Branch::Jge),
        0x28 => Op::Branch(Branch::Jgt),
        0x29 => Op::Branch(Branch::Jle),
        0x2A => Op::Branch(Branch::Jltu),
        0x2B => Op::Branch(Branch::Jgeu),
        0x2C => Op::Branch(Branch::Jgtu),
        0x2D => Op::Branch(Branch::Jleu),
        0x30 => Op::Flow(Flow::Call),
        0x31 => Op::Flow(Flow::Return),
        0x32 => Op::Flow(Flow::Catch),
        0x33 => Op::Flow(Flow::Throw),
        0x34 => Op::Flow(Flow::Tailcall),
        0x40 => Op::Move(Move::Copy),
        0x41 => Op::Move(Move::Copys),
        0x42 => Op::Move(Move::Copyb),
        0x44 => Op::Move(Move::Sexs),
        0x45 => Op::Move(Move::Sexb),
        0x48 => Op::Array(Array::Aload),
        0x49 => Op::Array(Array::Aloads),
        0x4A => Op::Array(Array::Aloadb),
        0x4B => Op::Array(Array::Aloadbit),
        0x4C => Op::Array(Array::Astore),
        0x4D => Op::Array(Array::Astores),
        0x4E => Op::Array(Array::Astoreb),
        0x4F => Op::Array(Array::Astorebit),
        0x50 => Op::Values(Values::Stkcount),
        0x51 => Op::Values(Values::Stkpeek),
        0x52 => Op::Values(Values::Stkswap),
        0x53 => Op::Values(Values::Stkroll),
        0x54 => Op::Values(Values::Stkcopy),
        0x70 => Op::Stream(Stream::Streamchar),
        0x71 => Op::Stream(Stream::Streamnum),
        0x72 => Op::Stream(Stream::Streamstr),
        0x73 => Op::Stream(Stream::Streamunichar),
        0x100 => Op::System(System::Gestalt),
        0x101 => Op::System(System::Debugtrap),
        0x102 => Op::System(System::Getmemsize),
        0x103 => Op::System(System::Setmemsize),
        0x104 => Op::Branch(Branch::Jumpabs),
        0x110 => Op::System(System::Random),
        0x111 => Op::System(System::Setrandom),
        0x120 => Op::State(State::Quit),
        0x121 => Op::State(State::Verify),
        0x122 => Op::State(State::Restart),
        0x123 => Op::State(State::Save),
        0x124 => Op::State(State::Restore),
        0x125 => Op::State(State::Saveundo),
        0x126 => Op::State(State::Restoreundo),
        0x127 => Op::State(State::Protect),
        0x128 => Op::State(State::Hasundo),
        0x129 => Op::State(State::Discardundo),
        0x130 => Op::System(System::Glk),
        0x140 => Op::Stream(Stream::Getstringtbl),
        0x141 => Op::Stream(Stream::Setstringtbl),
        0x148 => Op::Stream(Stream::Getiosys),
        0x149 => Op::Stream(Stream::Setiosys),
        0x150 => Op::Search(Search::Linearsearch),
        0x151 => Op::Search(Search::Binarysearch),
        0x152 => Op::Search(Search::Linkedsearch),
        0x160 => Op::Flow(Flow::Callf),
        0x161 => Op::Flow(Flow::Callfi),
        0x162 => Op::Flow(Flow::Callfii),
        0x163 => Op::Flow(Flow::Callfiii),
        0x170 => Op::Search(Search::Mzero),
        0x171 => Op::Search(Search::Mcopy),
        0x178 => Op::Search(Search::Malloc),
        0x179 => Op::Search(Search::Mfree),
        0x180 => Op::System(System::Accelfunc),
        0x181 => Op::System(System::Accelparam),
        _ => return None,
    };
    Some(op)
}

impl Op {
    /// The opcode of a number, or None where the table has none.
    #[inline(always)]
    pub fn of(number: u32) -> Option<Op>
        ensures value { result ≡ op_of number }
        ensures found { (op : Op) → opcode_number op ≡ number → result ≡ Some op }
        ensures only { IfSome result (λ op. opcode_number op ≡ number) }
    {
        lookup(number)
    }
}
