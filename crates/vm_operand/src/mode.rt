//! The modes of operands, and the bytes that they stand for.

ghost use Rattle.std.specs.Prelude.{◌≡◌, ◌≤◌, ◌<◌, ◌+◌, ◌^◌, OnOk, IfOk};
ghost use Rattle.vm_operand.specs.Mode as spec;
ghost use Rattle.vm_operand.specs.Mode.{size, mode_number, modes};
ghost use Rattle.vm_operand.specs.Opcode.{first_with};
ghost use Rattle.vm_operand.specs.Instruction.{with_sign_carried};
ghost use Rattle.vm_operand.specs.Reading.{instruction_read};
ghost use Rattle.vm_memory.specs.Access.{read};

use crate::OpFault;
use crate::operand::Kind;
use vm_memory::{MAX_SIZE, Memory};

/// How many bytes a constant, an address or an offset has.
#[derive(Clone, Copy, Debug, PartialEq, Eq)]
pub enum Width {
    One,
    Two,
    Four,
}

/// What the bytes of an operand say.
#[derive(Clone, Copy, Debug, PartialEq, Eq)]
pub enum Mode {
    Zero,
    Constant(Width),
    Address(Width),
    Stack,
    Local(Width),
    Ram(Width),
}

impl Width {
    pub(crate) fn size(self) -> u32
        ensures { result ≡ size self }
    {
        match self {
            Width::One => 1,
            Width::Two => 2,
            Width::Four => 4,
        }
    }

    /// The number of so many bytes at the address.
    pub(crate) fn read(self, memory: &Memory<'_>, at: u32) -> Result<u32, OpFault>
        ensures value { result ≡ instruction_read (read (size self) memory.now at) }
        ensures within { OnOk result (at + size self ≤ MAX_SIZE) }
        ensures fits { IfOk result (λ x. x < 256 ^ size self) }
    {
        Ok(match self {
            Width::One => memory.read1(at)?,
            Width::Two => memory.read2(at)?,
            Width::Four => memory.read4(at)?,
        })
    }

    /// A number of so many bytes with its sign carried to four.
    #[inline(always)]
    pub(crate) fn extend(self, value: u32) -> u32
        requires { value < 256 ^ size self }
        ensures { result ≡ with_sign_carried self value }
    {
        match self {
            Width::One if value >= 0x80 => value + 0xFFFF_FF00,
            Width::Two if value >= 0x8000 => value + 0xFFFF_0000,
            _ => value,
        }
    }
}

impl Mode {
    #[tactic(auto, unfolding(crate::specs::Mode::modes))]
    fn of(number: u32) -> Option<Mode>
        ensures { result ≡ first_with mode_number modes number }
    {
        Some(match number {
            0 => Mode::Zero,
            1 => Mode::Constant(Width::One),
            2 => Mode::Constant(Width::Two),
            3 => Mode::Constant(Width::Four),
            5 => Mode::Address(Width::One),
            6 => Mode::Address(Width::Two),
            7 => Mode::Address(Width::Four),
            8 => Mode::Stack,
            9 => Mode::Local(Width::One),
            10 => Mode::Local(Width::Two),
            11 => Mode::Local(Width::Four),
            13 => Mode::Ram(Width::One),
            14 => Mode::Ram(Width::Two),
            15 => Mode::Ram(Width::Four),
            _ => return None,
        })
    }

    /// The mode of an operand by its number; BadMode where it is none, or a constant of a store.
    #[tactic(auto, unfolding(crate::specs::Mode::mode_of))]
    pub(crate) fn for_kind(kind: Kind, number: u32) -> Result<Mode, OpFault>
        ensures { result ≡ spec.mode_of kind number }
    {
        match (kind, Mode::of(number)) {
            (_, None) | (Kind::Store, Some(Mode::Constant(_))) => Err(OpFault::BadMode(number)),
            (_, Some(mode)) => Ok(mode),
        }
    }
}
