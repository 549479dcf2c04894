//! The operands of each opcode.

ghost use Rattle.std.specs.Prelude.{◌≡◌, ◌≤◌, [], ◌∷◌, length, true, false, nat_eq};
ghost use Rattle.vm_operand.specs.Opcode as spec;
ghost use Rattle.vm_operand.specs.Opcode.{kinds_of, IsFew};
ghost use Rattle.vm_operand.specs.declared.opcode.Op.TheVariants as op;
ghost use Rattle.vm_operand.specs.declared.operand.Kind.TheVariants as kind;

use crate::opcode::{Array, Branch, Flow, Math, Move, Op, Search, State, Stream, System, Values};
use crate::operand::Kind;
use crate::operand::Kind::{Load, Store};

impl Op {
    /// Its operands in the order of their bytes, at most eight loads and two stores.
    #[inline(always)]
    pub fn kinds(self) -> &'static [Kind]
        ensures value { result.now ≡ kinds_of self }
        ensures few { IsFew result.now }
    {
        match self {
            Op::Math(op) => op.kinds(),
            Op::Branch(op) => op.kinds(),
            Op::Flow(op) => op.kinds(),
            Op::Move(op) => op.kinds(),
            Op::Array(op) => op.kinds(),
            Op::Values(op) => op.kinds(),
            Op::Stream(op) => op.kinds(),
            Op::State(op) => op.kinds(),
            Op::System(op) => op.kinds(),
            Op::Search(op) => op.kinds(),
        }
    }
}

impl Math {
    /// Whether it has two loads and a store; the others have one load and a store.
    #[inline(always)]
    pub fn is_binary(self) -> bool
        ensures value { result ≡ nat_eq (length (kinds_of (op.Math self))) 3 }
        ensures two { result ≡ true
            → kinds_of (op.Math self) ≡ kind.Load ∷ kind.Load ∷ kind.Store ∷ [] }
        ensures one { result ≡ false → kinds_of (op.Math self) ≡ kind.Load ∷ kind.Store ∷ [] }
    {
        match self {
            Math::Add
            | Math::Sub
            | Math::Mul
            | Math::Div
            | Math::Mod
            | Math::Bitand
            | Math::Bitor
            | Math::Bitxor
            | Math::Shiftl
            | Math::Sshiftr
            | Math::Ushiftr => true,
            Math::Neg | Math::Bitnot => false,
        }
    }

    fn kinds(self) -> &'static [Kind]
        ensures value { result.now ≡ (spec.math_row self).kinds }
        ensures few { IsFew result.now }
    {
        match self {
            Math::Add
            | Math::Sub
            | Math::Mul
            | Math::Div
            | Math::Mod
            | Math::Bitand
            | Math::Bitor
            | Math::Bitxor
            | Math::Shiftl
            | Math::Sshiftr
            | Math::Ushiftr => &[Load, Load, Store],
            Math::Neg | Math::Bitnot => &[Load, Store],
        }
    }
}

impl Branch {
    /// How many loads it has.
    #[inline(always)]
    pub fn loads(self) -> u32
        ensures value { result ≡ length (kinds_of (op.Branch self)) }
        ensures one { result ≡ 1 → kinds_of (op.Branch self) ≡ kind.Load ∷ [] }
        ensures two { result ≡ 2 → kinds_of (op.Branch self)
            ≡ kind.Load ∷ kind.Load ∷ [] }
        ensures three { result ≡ 3
            → kinds_of (op.Branch self) ≡ kind.Load ∷ kind.Load ∷ kind.Load ∷ [] }
        ensures some { 1 ≤ result }
        ensures few { result ≤ 3 }
    {
        match self {
            Branch::Jump | Branch::Jumpabs => 1,
            Branch::Jz | Branch::Jnz => 2,
            Branch::Jeq
            | Branch::Jne
            | Branch::Jlt
            | Branch::Jge
            | Branch::Jgt
            | Branch::Jle
            | Branch::Jltu
            | Branch::Jgeu
            | Branch::Jgtu
            | Branch::Jleu => 3,
        }
    }

    fn kinds(self) -> &'static [Kind]
        ensures value { result.now ≡ (spec.branch_row self).kinds }
        ensures few { IsFew result.now }
    {
        match self {
            Branch::Jump | Branch::Jumpabs => &[Load],
            Branch::Jz | Branch::Jnz => &[Load, Load],
            Branch::Jeq
            | Branch::Jne
            | Branch::Jlt
            | Branch::Jge
            | Branch::Jgt
            | Branch::Jle
            | Branch::Jltu
            | Branch::Jgeu
            | Branch::Jgtu
            | Branch::Jleu => &[Load, Load, Load],
        }
    }
}

impl Flow {
    fn kinds(self) -> &'static [Kind]
        ensures value { result.now ≡ (spec.flow_row self).kinds }
        ensures few { IsFew result.now }
    {
        match self {
            Flow::Call | Flow::Callfi => &[Load, Load, Store],
            Flow::Return => &[Load],
            Flow::Catch => &[Store, Load],
            Flow::Throw | Flow::Tailcall => &[Load, Load],
            Flow::Callf => &[Load, Store],
            Flow::Callfii => &[Load, Load, Load, Store],
            Flow::Callfiii => &[Load, Load, Load, Load, Store],
        }
    }
}

impl Move {
    fn kinds(self) -> &'static [Kind]
        ensures value { result.now ≡ (spec.move_row self).kinds }
        ensures few { IsFew result.now }
    {
        match self {
            Move::Copy | Move::Copys | Move::Copyb | Move::Sexs | Move::Sexb => &[Load, Store],
        }
    }
}

impl Array {
    /// Whether it reads an element into a store; the others write one.
    #[inline(always)]
    pub fn reads(self) -> bool
        ensures two { result ≡ true
            → kinds_of (op.Array self) ≡ kind.Load ∷ kind.Load ∷ kind.Store ∷ [] }
        ensures three { result ≡ false
            → kinds_of (op.Array self) ≡ kind.Load ∷ kind.Load ∷ kind.Load ∷ [] }
    {
        match self {
            Array::Aload | Array::Aloads | Array::Aloadb | Array::Aloadbit => true,
            Array::Astore | Array::Astores | Array::Astoreb | Array::Astorebit => false,
        }
    }

    fn kinds(self) -> &'static [Kind]
        ensures value { result.now ≡ (spec.array_row self).kinds }
        ensures few { IsFew result.now }
    {
        match self {
            Array::Aload | Array::Aloads | Array::Aloadb | Array::Aloadbit => &[Load, Load, Store],
            Array::Astore | Array::Astores | Array::Astoreb | Array::Astorebit => &[
                Load, Load, Load,
            ],
        }
    }
}

impl Values {
    fn kinds(self) -> &'static [Kind]
        ensures value { result.now ≡ (spec.values_row self).kinds }
        ensures few { IsFew result.now }
    {
        match self {
            Values::Stkcount => &[Store],
            Values::Stkpeek => &[Load, Store],
            Values::Stkswap => &[],
            Values::Stkroll => &[Load, Load],
            Values::Stkcopy => &[Load],
        }
    }
}

impl Stream {
    fn kinds(self) -> &'static [Kind]
        ensures value { result.now ≡ (spec.stream_row self).kinds }
        ensures few { IsFew result.now }
    {
        match self {
            Stream::Streamchar
            | Stream::Streamnum
            | Stream::Streamstr
            | Stream::Streamunichar
            | Stream::Setstringtbl => &[Load],
            Stream::Getstringtbl => &[Store],
            Stream::Getiosys => &[Store, Store],
            Stream::Setiosys => &[Load, Load],
        }
    }
}

impl State {
    fn kinds(self) -> &'static [Kind]
        ensures value { result.now ≡ (spec.state_row self).kinds }
        ensures few { IsFew result.now }
    {
        match self {
            State::Quit | State::Restart | State::Discardundo => &[],
            State::Verify | State::Saveundo | State::Restoreundo | State::Hasundo => &[Store],
            State::Save | State::Restore => &[Load, Store],
            State::Protect => &[Load, Load],
        }
    }
}

impl System {
    fn kinds(self) -> &'static [Kind]
        ensures value { result.now ≡ (spec.system_row self).kinds }
        ensures few { IsFew result.now }
    {
        match self {
            System::Nop => &[],
            System::Gestalt | System::Glk => &[Load, Load, Store],
            System::Debugtrap | System::Setrandom => &[Load],
            System::Getmemsize => &[Store],
            System::Setmemsize | System::Random => &[Load, Store],
            System::Accelfunc | System::Accelparam => &[Load, Load],
        }
    }
}

impl Search {
    fn kinds(self) -> &'static [Kind]
        ensures value { result.now ≡ (spec.search_row self).kinds }
        ensures few { IsFew result.now }
    {
        match self {
            Search::Linearsearch | Search::Binarysearch => &[
                Load, Load, Load, Load, Load, Load, Load, Store,
            ],
            Search::Linkedsearch => &[Load, Load, Load, Load, Load, Load, Store],
            Search::Mzero => &[Load, Load],
            Search::Mcopy => &[Load, Load, Load],
            Search::Malloc => &[Load, Store],
            Search::Mfree => &[Load],
        }
    }
}
