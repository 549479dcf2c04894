//! What instructions are made of.

ghost use Rattle.std.specs.Prelude.{◌≡◌, Err, IfOk, IsOk};
ghost use Rattle.vm_memory.specs.declared.fault.Trap.TheVariants.{NoMemory};
ghost use Rattle.vm_exec.specs.Machine.{IsFit, StaysFit};
ghost use Rattle.vm_exec.specs.Rows.Work.{DoesAtNoCost};
ghost use Rattle.vm_exec.specs.Rules as rules;
ghost use Rattle.vm_exec.specs.Want.{IsInMemory};

use crate::Machine;
use crate::step::{Done, Out};
use vm_memory::Trap;
use vm_operand::Dest;

impl<'i> Machine<'i> {
    #[inline(always)]
    pub(crate) fn tell(&self, out: Out) -> Result<Done, Trap>
        ensures does { DoesAtNoCost (rules.tells_out self.now out) self.now result }
        ensures ok { IsOk result }
    {
        Ok(Done { out, cost: 0 })
    }

    /// Stores a value.
    #[inline(always)]
    pub(crate) fn put(&mut self, to: Dest, value: u32) -> Result<Done, Trap>
        ensures does { DoesAtNoCost (rules.puts self.old to value) self.new result }
        ensures want { result ≡ Err NoMemory → IsInMemory to }
        ensures done { result ≡ Err NoMemory → IsOk (rules.puts self.old to value) }
        ensures fit { IsFit self.old → IfOk result (λ done. StaysFit self.new done.out) }
    {
        self.store(to, value)?;
        self.tell(Out::Ran)
    }
}
