//! Integer math.

ghost use Rattle.std.specs.Prelude.{◌≡◌, ◌≤◌, IfOk, OnOk, slice_index};
ghost use Rattle.vm_exec.specs.Answer.{Does};
ghost use Rattle.vm_exec.specs.Machine.{IsFit, StaysFit};
ghost use Rattle.vm_exec.specs.Row.{dest_by_index};
ghost use Rattle.vm_exec.specs.Rows.Math.{math_work};
ghost use Rattle.vm_exec.specs.Rows.Work.{budgeted};

use crate::Machine;
use crate::step::Done;
use vm_memory::Trap;
use vm_operand::{Dest, Math};

impl<'i> Machine<'i> {
    #[inline(always)]
    #[tactic(auto, unfolding(crate::specs::Rows::Math::math_work))]
    pub(crate) fn math_op(
        &mut self,
        op: Math,
        args: &[u32; 8],
        to: &[Dest; 2],
        left: u64,
    ) -> Result<Done, Trap>
        ensures does { Does
            (budgeted left (math_work op self.old (slice_index args.now) (dest_by_index to.now)))
            self.new result }
        ensures fit { IsFit self.old → IfOk result (λ done. StaysFit self.new done.out) }
        ensures within { IfOk result (λ done. done.cost ≤ left) }
    {
        let value = op.apply(args[0], args[1])?;
        self.put(to[0], value)
    }
}
