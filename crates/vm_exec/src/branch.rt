//! Branches.

ghost use Rattle.std.specs.Prelude.{◌≡◌, ◌≤◌, IfOk, OnOk, slice_index};
ghost use Rattle.vm_exec.specs.Answer.{Does};
ghost use Rattle.vm_exec.specs.Machine.{IsFit, StaysFit};
ghost use Rattle.vm_exec.specs.Row.{dest_by_index};
ghost use Rattle.vm_exec.specs.Rows.Branch.{branch_work};
ghost use Rattle.vm_exec.specs.Rows.Work.{DoesAtNoCost, budgeted};
ghost use Rattle.vm_exec.specs.Rules as rules;

use crate::Machine;
use crate::step::{Done, Out};
use vm_memory::Trap;
use vm_operand::{Branch, Dest};

impl<'i> Machine<'i> {
    /// A branch by an offset, of which 0 and 1 return that value.
    #[inline(always)]
    pub(crate) fn branch(&mut self, offset: u32) -> Result<Done, Trap>
        ensures does { DoesAtNoCost (rules.branches self.old offset) self.new result }
        ensures fit { IsFit self.old → IfOk result (λ done. StaysFit self.new done.out) }
    {
        if offset == 0 || offset == 1 {
            return self.give_back(offset);
        }
        self.pc = self.pc.wrapping_add(offset).wrapping_sub(2);
        self.tell(Out::Ran)
    }

    #[inline(always)]
    fn branch_if(&mut self, holds: bool, offset: u32) -> Result<Done, Trap>
        ensures does { DoesAtNoCost (rules.when self.old holds offset) self.new result }
        ensures fit { IsFit self.old → IfOk result (λ done. StaysFit self.new done.out) }
    {
        if holds {
            self.branch(offset)
        } else {
            self.tell(Out::Ran)
        }
    }

    #[inline(always)]
    fn jump_to(&mut self, at: u32) -> Result<Done, Trap>
        ensures does { DoesAtNoCost (rules.goes (record self.old { pc = at })) self.new result }
        ensures fit { IsFit self.old → IfOk result (λ done. StaysFit self.new done.out) }
    {
        self.pc = at;
        self.tell(Out::Ran)
    }

    #[inline(always)]
    #[tactic(auto, unfolding(crate::specs::Rows::Branch::branch_work))]
    pub(crate) fn branch_op(
        &mut self,
        op: Branch,
        args: &[u32; 8],
        to: &[Dest; 2],
        left: u64,
    ) -> Result<Done, Trap>
        ensures does { Does
            (budgeted left (branch_work op self.old (slice_index args.now) (dest_by_index to.now)))
            self.new result }
        ensures fit { IsFit self.old → IfOk result (λ done. StaysFit self.new done.out) }
        ensures within { IfOk result (λ done. done.cost ≤ left) }
    {
        let holds = op.holds(args[0], args[1]);
        match op {
            Branch::Jump => self.branch(args[0]),
            Branch::Jumpabs => self.jump_to(args[0]),
            Branch::Jz | Branch::Jnz => self.branch_if(holds, args[1]),
            Branch::Jeq
            | Branch::Jne
            | Branch::Jlt
            | Branch::Jge
            | Branch::Jgt
            | Branch::Jle
            | Branch::Jltu
            | Branch::Jgeu
            | Branch::Jgtu
            | Branch::Jleu => self.branch_if(holds, args[2]),
        }
    }
}
