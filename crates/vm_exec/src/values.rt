//! The values of the current frame.

ghost use Rattle.std.specs.Prelude.{◌≡◌, ◌≤◌, ◌/◌, ◌-◌, IfOk, OnOk, slice_index};
ghost use Rattle.vm_exec.specs.Answer.{Changes, Does};
ghost use Rattle.vm_exec.specs.Machine.{IsFit, StaysFit};
ghost use Rattle.vm_exec.specs.Row.{dest_by_index};
ghost use Rattle.vm_exec.specs.Rows.Values as rows;
ghost use Rattle.vm_exec.specs.Rows.Work.{Costs, DoesAtNoCost, budgeted};
ghost use Rattle.vm_exec.specs.Rules as rules;
ghost use Rattle.vm_stack.specs.Answer.{LeavesStack};
ghost use Rattle.vm_stack.specs.Chain.{Chain, HasFrame};
ghost use Rattle.vm_stack.specs.Values.{value_count};

use crate::Machine;
use crate::step::{Done, Out};
use crate::trap::{charge, of_stack};
use vm_memory::Trap;
use vm_operand::{Dest, Values};
use vm_stack::{Stack, StackFault};

impl<'i> Machine<'i> {
    fn stkcount(&mut self, to: Dest) -> Result<Done, Trap>
        ensures does { DoesAtNoCost (rules.puts self.old to (value_count self.old.stack))
            self.new result }
        ensures fit { IsFit self.old → IfOk result (λ done. StaysFit self.new done.out) }
    {
        let count = self.stack.count();
        self.put(to, count)
    }

    fn stkpeek(&mut self, depth: u32, to: Dest) -> Result<Done, Trap>
        ensures does { DoesAtNoCost (rows.peeks self.old depth to) self.new result }
        ensures fit { IsFit self.old → IfOk result (λ done. StaysFit self.new done.out) }
    {
        let value = self.stack.peek(depth).map_err(of_stack)?;
        self.put(to, value)
    }

    fn roll(&mut self, count: u32, by: u32) -> Result<Done, Trap>
        ensures does { DoesAtNoCost (rows.rolls self.old count by) self.new result }
        ensures fit { IsFit self.old → IfOk result (λ done. StaysFit self.new done.out) }
    {
        self.stack.roll(count, by).map_err(of_stack)?;
        self.tell(Out::Ran)
    }

    fn stkroll(&mut self, count: u32, by: u32, left: u64) -> Result<Done, Trap>
        ensures does { Does
            (budgeted left (Costs (count / 16) (rows.rolls self.old count by)))
            self.new result }
        ensures fit { IsFit self.old → IfOk result (λ done. StaysFit self.new done.out) }
        ensures within { IfOk result (λ done. done.cost ≤ left) }
    {
        let cost = charge(u64::from(count / 16), left)?;
        self.stack.roll(count, by).map_err(of_stack)?;
        Ok(Done {
            out: Out::Ran,
            cost,
        })
    }

    fn stkcopy(&mut self, count: u32, left: u64) -> Result<Done, Trap>
        ensures does { Does
            (budgeted left (Costs (count / 16) (rows.copies self.old count)))
            self.new result }
        ensures fit { IsFit self.old → IfOk result (λ done. StaysFit self.new done.out) }
        ensures within { IfOk result (λ done. done.cost ≤ left) }
    {
        let cost = charge(u64::from(count / 16), left)?;
        copy_up(&mut self.stack, count)?;
        Ok(Done {
            out: Out::Ran,
            cost,
        })
    }

    #[tactic(auto, unfolding(crate::specs::Rows::Values::values_work))]
    pub(crate) fn values_op(
        &mut self,
        op: Values,
        args: &[u32; 8],
        to: &[Dest; 2],
        left: u64,
    ) -> Result<Done, Trap>
        ensures does { Does
            (budgeted left
            (rows.values_work op self.old (slice_index args.now) (dest_by_index to.now)))
            self.new result }
        ensures fit { IsFit self.old → IfOk result (λ done. StaysFit self.new done.out) }
        ensures within { IfOk result (λ done. done.cost ≤ left) }
    {
        match op {
            Values::Stkcount => self.stkcount(to[0]),
            Values::Stkpeek => self.stkpeek(args[0], to[0]),
            Values::Stkswap => self.roll(2, 1),
            Values::Stkroll => self.stkroll(args[0], args[1], left),
            Values::Stkcopy => self.stkcopy(args[0], left),
        }
    }
}

// So many values again, each the one that then lies a value less below the top.
fn copy_up(stack: &mut Stack, count: u32) -> Result<(), Trap>
    ensures does { Changes (rows.copied_up stack.old (count - 1) count) stack.new result }
    ensures kept { Chain stack.old → HasFrame stack.old
        → OnOk result (Chain stack.new × HasFrame stack.new) }
{
    for _ in 0..count {
        match copy_one(stack, count - 1) {
            Ok(()) => {}
            Err(fault) => return Err(of_stack(fault)),
        }
    }
    Ok(())
}

// The value at a depth again, on top.
fn copy_one(stack: &mut Stack, depth: u32) -> Result<(), StackFault>
    ensures does { LeavesStack (rows.copied_one stack.old depth) stack.new result }
    ensures kept { Chain stack.old → HasFrame stack.old
        → OnOk result (Chain stack.new × HasFrame stack.new) }
{
    let value = stack.peek(depth)?;
    stack.push(value)?;
    Ok(())
}
