//! Memory, gestalt, Glk and the rest.

ghost use Rattle.std.specs.Prelude.{◌≡◌, ◌≤◌, IfOk, OnOk, slice_index, length};
ghost use Rattle.vm_exec.specs.Answer.{Does};
ghost use Rattle.vm_exec.specs.Machine.{IsFit, StaysFit};
ghost use Rattle.vm_exec.specs.Row.{dest_by_index};
ghost use Rattle.vm_exec.specs.Rows.System as rows;
ghost use Rattle.vm_exec.specs.Rows.Work.{DoesAtNoCost, budgeted};
ghost use Rattle.vm_exec.specs.Rules as rules;

use crate::Machine;
use crate::step::{Done, Out, Waiting};
use crate::trap::DEBUG_TRAP;
use vm_memory::Trap;
use vm_operand::{Dest, System};

impl<'i> Machine<'i> {
    fn getmemsize(&mut self, to: Dest) -> Result<Done, Trap>
        ensures does { DoesAtNoCost
            (rules.puts self.old to (length self.old.memory.bytes))
            self.new result }
        ensures fit { IsFit self.old → IfOk result (λ done. StaysFit self.new done.out) }
    {
        let size = self.memory.size();
        self.put(to, size)
    }

    fn get_gestalt(&mut self, selector: u32, argument: u32, to: Dest) -> Result<Done, Trap>
        ensures does { DoesAtNoCost
            (rules.puts self.old to (rows.gestalt_of self.old selector argument))
            self.new result }
        ensures fit { IsFit self.old → IfOk result (λ done. StaysFit self.new done.out) }
    {
        let answer = if selector == 8 {
            self.heap.start()
        } else {
            gestalt(selector, argument)
        };
        self.put(to, answer)
    }

    fn call_glk(&mut self, selector: u32, args: u32, to: Dest) -> Result<Done, Trap>
        ensures does { DoesAtNoCost (rows.calls_glk self.old selector args to) self.new result }
        ensures fit { IsFit self.old → IfOk result (λ done. StaysFit self.new done.out) }
    {
        self.waiting = Waiting::Store(to);
        self.tell(Out::Glk { selector, args })
    }

    #[tactic(auto, unfolding(crate::specs::Rows::System::system_work))]
    pub(crate) fn system_op(
        &mut self,
        op: System,
        args: &[u32; 8],
        to: &[Dest; 2],
        left: u64,
    ) -> Result<Done, Trap>
        ensures does { Does
            (budgeted left
            (rows.system_work op self.old (slice_index args.now) (dest_by_index to.now)))
            self.new result }
        ensures fit { IsFit self.old → IfOk result (λ done. StaysFit self.new done.out) }
        ensures within { IfOk result (λ done. done.cost ≤ left) }
    {
        match op {
            System::Nop | System::Accelfunc | System::Accelparam => self.tell(Out::Ran),
            System::Gestalt => self.get_gestalt(args[0], args[1], to[0]),
            System::Debugtrap => Err(DEBUG_TRAP),
            System::Getmemsize => self.getmemsize(to[0]),
            System::Glk => self.call_glk(args[0], args[1], to[0]),
            System::Setmemsize => self.setmemsize(args[0], to[0], left),
            System::Random => self.draw(args[0], to[0]),
            System::Setrandom => self.set_random(args[0]),
        }
    }
}

// What the machine can do.
fn gestalt(selector: u32, argument: u32) -> u32
    ensures { result ≡ rows.gestalt selector argument }
{
    match selector {
        0 => 0x0003_0103,
        1 => 0x0001_0000,
        4 => u32::from(argument <= 2),
        2 | 3 | 5 | 6 | 7 | 12 => 1,
        _ => 0,
    }
}
