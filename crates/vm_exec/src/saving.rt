//! Saves and restores that the machine asks for, and how it goes on.

ghost use Rattle.std.specs.Prelude.{◌≡◌, ◌==◌, IfOk, OnOk};
ghost use Rattle.vm_exec.specs.Answer.{Changes, Does};
ghost use Rattle.vm_exec.specs.Machine.{IsFit, IsSaving, StaysFit};
ghost use Rattle.vm_exec.specs.Rules as rules;
ghost use Rattle.vm_exec.specs.Rows.Undo as rows;

use crate::Machine;
use crate::step::{Out, Waiting};
use vm_memory::Trap;
use vm_operand::Dest;

impl<'i> Machine<'i> {
    fn has_glk(&self) -> bool
        ensures { result ≡ (self.now.mode == 2) }
    {
        self.mode == 2
    }

    // A save or restore fails: the result is 1.
    fn fail(&mut self, to: Dest) -> Result<Out, Trap>
        ensures does { Does (rules.puts self.old to 1) self.new result }
        ensures fit { IsFit self.old → IfOk result (λ out. StaysFit self.new out) }
    {
        self.store(to, 1)?;
        Ok(Out::Ran)
    }

    /// A save is asked for, with the stub for the store on the stack; without Glk it fails.
    pub(crate) fn ask_save(&mut self, stream: u32, to: Dest) -> Result<Out, Trap>
        ensures does { Does (rows.asks_save self.old stream to) self.new result }
        ensures fit { IsFit self.old → IfOk result (λ out. StaysFit self.new out) }
    {
        if !self.has_glk() {
            return self.fail(to);
        }
        self.push_stub_for(to)?;
        self.waiting = Waiting::Stub;
        Ok(Out::Save { stream })
    }

    /// A restore is asked for; without Glk it fails.
    pub(crate) fn ask_restore(&mut self, stream: u32, to: Dest) -> Result<Out, Trap>
        ensures does { Does (rows.asks_restore self.old stream to) self.new result }
        ensures fit { IsFit self.old → IfOk result (λ out. StaysFit self.new out) }
    {
        if !self.has_glk() {
            return self.fail(to);
        }
        self.waiting = Waiting::Store(to);
        Ok(Out::Restore { stream })
    }

    /// The save that the last step asked for is over: its stub is taken.
    pub(crate) fn finish_save(&mut self, value: u32) -> Result<(), Trap>
        ensures does { Changes (rows.save_over self.old value) self.new result }
        ensures saving { IsSaving self.old → OnOk result (IsFit self.new) }
    {
        self.waiting = Waiting::Store(Dest::Discard);
        self.come_back(value)
    }
}
