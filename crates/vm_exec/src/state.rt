//! The game's state.

ghost use Rattle.std.specs.Prelude.{◌≡◌, ◌≤◌, ◌/◌, IfOk, OnOk, Ok, Err, nat_lt};
ghost use Rattle.std.specs.Prelude.{if◌then◌else◌, slice_index, length};
ghost use Rattle.vm_exec.specs.Answer.{Does};
ghost use Rattle.vm_exec.specs.Machine.{IsFit, StaysFit};
ghost use Rattle.vm_exec.specs.Row.{dest_by_index};
ghost use Rattle.vm_exec.specs.Rows.State as rows;
ghost use Rattle.vm_exec.specs.Rows.Work.{Costs, budgeted};
ghost use Rattle.vm_exec.specs.Rows.Undo as undo;
ghost use Rattle.vm_exec.specs.Rules as rules;
ghost use Rattle.vm_memory.specs.declared.fault.Trap.TheVariants.{Fault};
ghost use Rattle.vm_memory.specs.declared.faults.TheConstants.{BUDGET_SPENT};

use crate::Machine;
use crate::step::{Done, Out};
use crate::trap::charge;
use std::alloc::Global;
use vm_memory::Trap;
use vm_operand::{Dest, State};

impl<'i> Machine<'i> {
    fn verify(&mut self, to: Dest, left: u64) -> Result<Done, Trap>
        ensures does { Does
            (budgeted left (Costs (length self.old.memory.rom / 256)
            (rules.puts self.old to self.old.verified)))
            self.new result }
        ensures fit { IsFit self.old → IfOk result (λ done. StaysFit self.new done.out) }
        ensures within { IfOk result (λ done. done.cost ≤ left) }
    {
        let cost = charge(self.memory.rom().len() as u64 / 256, left)?;
        self.store(to, self.verified)?;
        Ok(Done {
            out: Out::Ran,
            cost,
        })
    }

    // The charge for the pages of memory.
    fn charge_pages(&self, left: u64) -> Result<u64, Trap>
        ensures { result ≡ if nat_lt left (undo.pages self.now) then Err (Fault BUDGET_SPENT)
            else Ok (undo.pages self.now) }
    {
        charge(u64::from(self.memory.size() / 256), left)
    }

    fn restart_op(&mut self, alloc: Global, left: u64) -> Result<Done, Trap>
        ensures does { Does
            (budgeted left (Costs (undo.pages self.old) (undo.restarts self.old)))
            self.new result }
        ensures fit { IsFit self.old → IfOk result (λ done. StaysFit self.new done.out) }
        ensures within { IfOk result (λ done. done.cost ≤ left) }
    {
        let cost = self.charge_pages(left)?;
        self.restart(alloc)?;
        Ok(Done {
            out: Out::Ran,
            cost,
        })
    }

    fn saveundo(&mut self, alloc: Global, to: Dest, left: u64) -> Result<Done, Trap>
        requires { IsFit self.old }
        ensures does { Does
            (budgeted left (Costs (undo.pages self.old) (undo.saves_undo self.old to)))
            self.new result }
        ensures fit { IfOk result (λ done. StaysFit self.new done.out) }
        ensures within { IfOk result (λ done. done.cost ≤ left) }
    {
        let cost = self.charge_pages(left)?;
        self.save_undo(alloc, to)?;
        Ok(Done {
            out: Out::Ran,
            cost,
        })
    }

    fn restoreundo(&mut self, alloc: Global, to: Dest, left: u64) -> Result<Done, Trap>
        ensures does { Does
            (budgeted left (Costs (undo.pages self.old) (undo.restores_undo self.old to)))
            self.new result }
        ensures fit { IsFit self.old → IfOk result (λ done. StaysFit self.new done.out) }
        ensures within { IfOk result (λ done. done.cost ≤ left) }
    {
        let cost = self.charge_pages(left)?;
        self.restore_undo(alloc, to)?;
        Ok(Done {
            out: Out::Ran,
            cost,
        })
    }

    fn save(&mut self, stream: u32, to: Dest, left: u64) -> Result<Done, Trap>
        ensures does { Does
            (budgeted left (Costs (undo.pages self.old) (undo.asks_save self.old stream to)))
            self.new result }
        ensures fit { IsFit self.old → IfOk result (λ done. StaysFit self.new done.out) }
        ensures within { IfOk result (λ done. done.cost ≤ left) }
    {
        let cost = self.charge_pages(left)?;
        let out = self.ask_save(stream, to)?;
        Ok(Done { out, cost })
    }

    fn restore(&mut self, stream: u32, to: Dest, left: u64) -> Result<Done, Trap>
        ensures does { Does
            (budgeted left (Costs (undo.pages self.old) (undo.asks_restore self.old stream to)))
            self.new result }
        ensures fit { IsFit self.old → IfOk result (λ done. StaysFit self.new done.out) }
        ensures within { IfOk result (λ done. done.cost ≤ left) }
    {
        let cost = self.charge_pages(left)?;
        let out = self.ask_restore(stream, to)?;
        Ok(Done { out, cost })
    }

    #[tactic(auto, unfolding(crate::specs::Rows::State::state_work))]
    pub(crate) fn state_op(
        &mut self,
        alloc: Global,
        op: State,
        args: &[u32; 8],
        to: &[Dest; 2],
        left: u64,
    ) -> Result<Done, Trap>
        requires { IsFit self.old }
        ensures does { Does
            (budgeted left
            (rows.state_work op self.old (slice_index args.now) (dest_by_index to.now)))
            self.new result }
        ensures fit { IfOk result (λ done. StaysFit self.new done.out) }
        ensures within { IfOk result (λ done. done.cost ≤ left) }
    {
        match op {
            State::Quit => self.tell(Out::Quit),
            State::Verify => self.verify(to[0], left),
            State::Restart => self.restart_op(alloc, left),
            State::Saveundo => self.saveundo(alloc, to[0], left),
            State::Restoreundo => self.restoreundo(alloc, to[0], left),
            State::Protect => self.protect(args[0], args[1]),
            State::Hasundo => self.has_undo(to[0]),
            State::Discardundo => self.discard_undo(),
            State::Save => self.save(args[0], to[0], left),
            State::Restore => self.restore(args[0], to[0], left),
        }
    }
}
