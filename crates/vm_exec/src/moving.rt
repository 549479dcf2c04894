//! Moving data.

ghost use Rattle.std.specs.Prelude.{◌≡◌, ◌≤◌, IfOk, OnOk, slice_index};
ghost use Rattle.vm_exec.specs.Answer.{Does};
ghost use Rattle.vm_exec.specs.Machine.{IsFit, StaysFit};
ghost use Rattle.vm_exec.specs.Row.{dest_by_index};
ghost use Rattle.vm_exec.specs.Rows.Moving as rows;
ghost use Rattle.vm_exec.specs.Rows.Work.{DoesAtNoCost, budgeted};
ghost use Rattle.vm_stack.specs.Locals.{IsWidth};

use crate::Machine;
use crate::step::{Done, Out};
use vm_memory::Trap;
use vm_operand::{Dest, Move};

impl<'i> Machine<'i> {
    fn put_in(&mut self, width: u32, to: Dest, value: u32) -> Result<Done, Trap>
        requires { IsWidth width }
        ensures does { DoesAtNoCost (rows.puts_in width self.old to value) self.new result }
        ensures fit { IsFit self.old → IfOk result (λ done. StaysFit self.new done.out) }
    {
        self.store_in(width, to, value)?;
        self.tell(Out::Ran)
    }

    #[inline(always)]
    #[tactic(auto, unfolding(crate::specs::Rows::Moving::move_work))]
    pub(crate) fn move_op(
        &mut self,
        op: Move,
        args: &[u32; 8],
        to: &[Dest; 2],
        left: u64,
    ) -> Result<Done, Trap>
        ensures does { Does
            (budgeted left
            (rows.move_work op self.old (slice_index args.now) (dest_by_index to.now)))
            self.new result }
        ensures fit { IsFit self.old → IfOk result (λ done. StaysFit self.new done.out) }
        ensures within { IfOk result (λ done. done.cost ≤ left) }
    {
        match op {
            Move::Copy => self.put(to[0], args[0]),
            Move::Copys => self.put_in(2, to[0], args[0]),
            Move::Copyb => self.put_in(1, to[0], args[0]),
            Move::Sexs => self.put(to[0], extend_short(args[0])),
            Move::Sexb => self.put(to[0], extend_byte(args[0])),
        }
    }
}

// The low two bytes, with the sign of bit 15.
fn extend_short(value: u32) -> u32
    ensures { result ≡ rows.sign_extended 2 value }
{
    let low = value % 0x1_0000;
    if low < 0x8000 { low } else { low + 0xFFFF_0000 }
}

// The low byte, with the sign of bit 7.
fn extend_byte(value: u32) -> u32
    ensures { result ≡ rows.sign_extended 1 value }
{
    let low = value % 0x100;
    if low < 0x80 { low } else { low + 0xFFFF_FF00 }
}
