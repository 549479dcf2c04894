//! Output and the I/O systems.

ghost use Rattle.std.specs.Prelude.{◌≡◌, ◌≤◌, IfOk, OnOk, slice_index};
ghost use Rattle.vm_exec.specs.Answer.{Does};
ghost use Rattle.vm_exec.specs.Machine.{IsFit, StaysFit};
ghost use Rattle.vm_exec.specs.Row.{dest_by_index};
ghost use Rattle.vm_exec.specs.Rows.Output as rows;
ghost use Rattle.vm_exec.specs.Rows.Work.{DoesAtNoCost, budgeted};
ghost use Rattle.vm_exec.specs.Rules as rules;

use crate::Machine;
use crate::step::{Done, Out};
use std::alloc::Global;
use vm_memory::Trap;
use vm_operand::{Dest, Stream};

impl<'i> Machine<'i> {
    /// A character under the I/O system.
    fn stream(&mut self, alloc: Global, character: u32) -> Result<Done, Trap>
        ensures does { DoesAtNoCost (rules.streams self.old character) self.new result }
        ensures fit { IsFit self.old → IfOk result (λ done. StaysFit self.new done.out) }
    {
        match self.mode {
            2 => self.tell(Out::Char(character)),
            1 => self.call(alloc, self.rock, &[character], Dest::Discard),
            _ => self.tell(Out::Ran),
        }
    }

    fn get_io(&mut self, mode: Dest, rock: Dest) -> Result<Done, Trap>
        ensures does { DoesAtNoCost (rows.gives_io self.old mode rock) self.new result }
        ensures fit { IsFit self.old → IfOk result (λ done. StaysFit self.new done.out) }
    {
        self.store(mode, self.mode)?;
        self.put(rock, self.rock)
    }

    fn set_io(&mut self, mode: u32, rock: u32) -> Result<Done, Trap>
        ensures does { DoesAtNoCost (rows.takes_io self.old mode rock) self.new result }
        ensures fit { IsFit self.old → IfOk result (λ done. StaysFit self.new done.out) }
    {
        (self.mode, self.rock) = if mode <= 2 { (mode, rock) } else { (0, 0) };
        self.tell(Out::Ran)
    }

    fn set_table(&mut self, at: u32) -> Result<Done, Trap>
        ensures does { DoesAtNoCost (rules.goes (record self.old { string_table = at }))
            self.new result }
        ensures fit { IsFit self.old → IfOk result (λ done. StaysFit self.new done.out) }
    {
        self.string_table = at;
        self.tell(Out::Ran)
    }

    #[tactic(auto, unfolding(crate::specs::Rows::Output::streaming_work))]
    pub(crate) fn stream_op(
        &mut self,
        alloc: Global,
        op: Stream,
        args: &[u32; 8],
        to: &[Dest; 2],
        left: u64,
    ) -> Result<Done, Trap>
        ensures does { Does
            (budgeted left
            (rows.streaming_work op self.old (slice_index args.now) (dest_by_index to.now)))
            self.new result }
        ensures fit { IsFit self.old → IfOk result (λ done. StaysFit self.new done.out) }
        ensures within { IfOk result (λ done. done.cost ≤ left) }
    {
        match op {
            Stream::Streamchar => self.stream(alloc, args[0] % 256),
            Stream::Streamunichar => self.stream(alloc, args[0]),
            Stream::Getstringtbl => self.put(to[0], self.string_table),
            Stream::Setstringtbl => self.set_table(args[0]),
            Stream::Getiosys => self.get_io(to[0], to[1]),
            Stream::Setiosys => self.set_io(args[0], args[1]),
            Stream::Streamnum => self.begin_number(args[0]),
            Stream::Streamstr => self.begin(args[0], false),
        }
    }
}
