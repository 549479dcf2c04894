//! The conditions of branches.

ghost use Rattle.std.specs.Prelude.{◌≡◌, IsSome, IfSome};
ghost use Rattle.vm_operand.specs.Branch as spec;
ghost use Rattle.vm_operand.specs.Branch.{branch_of};
ghost use Rattle.vm_operand.specs.Opcode.{op_of};

use crate::opcode::{Branch, Op};

impl Branch {
    /// Whether the branch is taken at its two loads: jz and jnz look at the first alone, and jump
    /// and jumpabs at none.
    #[tactic(auto, unfolding(crate::specs::Branch::holds))]
    pub fn holds(self, left: u32, right: u32) -> bool
        ensures value { result ≡ spec.holds self left right }
    {
        match self {
            Branch::Jump | Branch::Jumpabs => true,
            Branch::Jz => left == 0,
            Branch::Jnz => left != 0,
            Branch::Jeq => left == right,
            Branch::Jne => left != right,
            Branch::Jlt => left.cast_signed() < right.cast_signed(),
            Branch::Jge => left.cast_signed() >= right.cast_signed(),
            Branch::Jgt => left.cast_signed() > right.cast_signed(),
            Branch::Jle => left.cast_signed() <= right.cast_signed(),
            Branch::Jltu => left < right,
            Branch::Jgeu => left >= right,
            Branch::Jgtu => left > right,
            Branch::Jleu => left <= right,
        }
    }
}

/// Whether the branch of this number, 0x22 to 0x2D of the table or a jump, is taken at its loads
/// (Glulx 3.1.3, "Branches").
pub fn holds(op: u32, left: u32, right: u32) -> bool
    requires { IsSome (branch_of (op_of op)) }
    ensures value { IfSome (branch_of (op_of op)) (λ branch.
        result ≡ spec.holds branch left right) }
{
    match Op::of(op) {
        Some(Op::Branch(branch)) => branch.holds(left, right),
        _ => unreachable!(),
    }
}
