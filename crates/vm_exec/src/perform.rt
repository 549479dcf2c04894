//! From an opcode to its work.

ghost use Rattle.std.specs.Prelude.{◌≡◌, ◌≤◌, ◌<◌, IfOk, OnOk, Ok, slice_index};
ghost use Rattle.vm_exec.specs.Answer.{Does};
ghost use Rattle.vm_exec.specs.Machine.{GoesOnFit, IsFit, StaysFit};
ghost use Rattle.vm_exec.specs.Row as row;
ghost use Rattle.vm_exec.specs.Row.{IsPriced, charged, dest_by_index, step_within, work, work_of};
ghost use Rattle.vm_exec.specs.Rows.Work.{budgeted};
ghost use Rattle.vm_stack.specs.Locals.{IsWidth};

use crate::Machine;
use crate::step::{Done, Step};
use crate::trap::BAD_OPCODE;
use std::alloc::Global;
use vm_memory::Trap;
use vm_operand::{Dest, Move, Op};

impl<'i> Machine<'i> {
    /// What the opcode's row says.
    #[inline(always)]
    pub(crate) fn perform(
        &mut self,
        alloc: Global,
        op: Op,
        args: &[u32; 8],
        to: &[Dest; 2],
        left: u64,
    ) -> Result<Done, Trap>
        requires { IsFit self.old }
        ensures does { Does
            (budgeted left (work op self.old (slice_index args.now) (dest_by_index to.now)))
            self.new result }
        ensures fit { IfOk result (λ done. StaysFit self.new done.out) }
        ensures within { IfOk result (λ done. done.cost ≤ left) }
    {
        match op {
            Op::Math(op) => self.math_op(op, args, to, left),
            Op::Branch(op) => self.branch_op(op, args, to, left),
            Op::Flow(op) => self.flow_op(alloc, op, args, to, left),
            Op::Move(op) => self.move_op(op, args, to, left),
            Op::Array(op) => self.array_op(op, args, to, left),
            Op::Values(op) => self.values_op(op, args, to, left),
            Op::Stream(op) => self.stream_op(alloc, op, args, to, left),
            Op::System(op) => self.system_op(op, args, to, left),
            Op::State(op) => self.state_op(alloc, op, args, to, left),
            Op::Search(op) => self.search_op(op, args, to, left),
        }
    }

    /// One tick, and then the opcode's work.
    #[inline(always)]
    pub(crate) fn run(
        &mut self,
        alloc: Global,
        op: Option<Op>,
        args: &[u32; 8],
        to: &[Dest; 2],
        left: u64,
    ) -> Result<Step, Trap>
        requires some { 0 < left }
        requires fit { IsFit self.old }
        ensures does { Does
            (step_within left (charged (Ok (work_of op self.old args.now to.now))))
            self.new result }
        ensures fit { IfOk result (λ step. GoesOnFit self.new step) }
        ensures cost { IfOk result (λ step. IsPriced left step) }
    {
        match op {
            Some(op) => {
                let done = self.perform(alloc, op, args, to, left - 1)?;
                Ok(done.step(done.cost + 1))
            }
            None => Err(BAD_OPCODE),
        }
    }
}

/// How many bytes the loads of an opcode have.
#[inline(always)]
pub(crate) fn width_of(op: Option<Op>) -> u32
    ensures value { result ≡ row.width_of op }
    ensures width { IsWidth result }
{
    match op {
        Some(Op::Move(Move::Copys)) => 2,
        Some(Op::Move(Move::Copyb)) => 1,
        _ => 4,
    }
}
