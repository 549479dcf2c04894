//! Arithmetic on 32 bits.

ghost use Rattle.std.specs.Prelude.{◌≡◌, IsSome, IfSome, int_div, int_rem};
ghost use Rattle.vm_operand.specs.Arithmetic.{applied, divided, signed, math_of};
ghost use Rattle.vm_operand.specs.Opcode.{op_of};

use crate::OpFault;
use crate::opcode::{Math, Op};

fn quotient(left: u32, right: u32) -> Result<u32, OpFault>
    ensures { result ≡ divided left right (int_div (signed left) (signed right)) }
{
    if right == 0 {
        Err(OpFault::DivideByZero)
    } else if left == 0x8000_0000 && right == 0xFFFF_FFFF {
        Err(OpFault::DivideOverflow)
    } else {
        Ok((left.cast_signed() / right.cast_signed()).cast_unsigned())
    }
}

fn remainder(left: u32, right: u32) -> Result<u32, OpFault>
    ensures { result ≡ divided left right (int_rem (signed left) (signed right)) }
{
    if right == 0 {
        Err(OpFault::DivideByZero)
    } else if left == 0x8000_0000 && right == 0xFFFF_FFFF {
        Err(OpFault::DivideOverflow)
    } else {
        Ok((left.cast_signed() % right.cast_signed()).cast_unsigned())
    }
}

impl Math {
    /// What the opcode gives for its two loads, of which neg and bitnot take the first alone.
    /// DivideByZero and DivideOverflow (-2^31 by -1) come at div and mod alone.
    #[inline(always)]
    #[tactic(auto, unfolding(crate::specs::Arithmetic::applied))]
    pub fn apply(self, left: u32, right: u32) -> Result<u32, OpFault>
        ensures value { result ≡ applied self left right }
    {
        Ok(match self {
            Math::Add => left.wrapping_add(right),
            Math::Sub => left.wrapping_sub(right),
            Math::Mul => left.wrapping_mul(right),
            Math::Div => return quotient(left, right),
            Math::Mod => return remainder(left, right),
            Math::Neg => left.wrapping_neg(),
            Math::Bitand => left & right,
            Math::Bitor => left | right,
            Math::Bitxor => left ^ right,
            Math::Bitnot => !left,
            Math::Shiftl if right < 32 => left << right,
            Math::Ushiftr if right < 32 => left >> right,
            Math::Shiftl | Math::Ushiftr => 0,
            Math::Sshiftr if right < 32 => (left.cast_signed() >> right).cast_unsigned(),
            Math::Sshiftr if left < 0x8000_0000 => 0,
            Math::Sshiftr => 0xFFFF_FFFF,
        })
    }
}

/// What the opcode of arithmetic of this number, 0x10 to 0x1E of the table, gives for its loads
/// (Glulx 3.1.3, "Integer Math").
pub fn arith(op: u32, left: u32, right: u32) -> Result<u32, OpFault>
    requires { IsSome (math_of (op_of op)) }
    ensures value { IfSome (math_of (op_of op)) (λ math. result ≡ applied math left right) }
{
    match Op::of(op) {
        Some(Op::Math(math)) => math.apply(left, right),
        _ => unreachable!(),
    }
}
