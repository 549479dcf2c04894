//! Blocks, searches and the heap.

ghost use Rattle.std.specs.Prelude.{◌≡◌, ◌≤◌, ◌/◌, IfOk, OnOk, slice_index};
ghost use Rattle.vm_exec.specs.Answer.{Does};
ghost use Rattle.vm_exec.specs.Machine.{IsFit, StaysFit};
ghost use Rattle.vm_exec.specs.Row.{dest_by_index};
ghost use Rattle.vm_exec.specs.Rows.Search as rows;
ghost use Rattle.vm_exec.specs.Rows.Work.{Costs, budgeted};

use crate::Machine;
use crate::step::{Done, Out};
use crate::trap::charge;
use vm_memory::Trap;
use vm_operand::{Dest, Search};

impl<'i> Machine<'i> {
    fn mzero(&mut self, count: u32, at: u32, left: u64) -> Result<Done, Trap>
        ensures does { Does
            (budgeted left (Costs (count / 16) (rows.zeroes self.old count at)))
            self.new result }
        ensures fit { IsFit self.old → IfOk result (λ done. StaysFit self.new done.out) }
        ensures within { IfOk result (λ done. done.cost ≤ left) }
    {
        let cost = charge(u64::from(count / 16), left)?;
        self.memory.zero(at, count)?;
        Ok(Done {
            out: Out::Ran,
            cost,
        })
    }

    fn mcopy(&mut self, count: u32, from: u32, to: u32, left: u64) -> Result<Done, Trap>
        ensures does { Does
            (budgeted left (Costs (count / 16) (rows.copies_block self.old count from to)))
            self.new result }
        ensures fit { IsFit self.old → IfOk result (λ done. StaysFit self.new done.out) }
        ensures within { IfOk result (λ done. done.cost ≤ left) }
    {
        let cost = charge(u64::from(count / 16), left)?;
        self.memory.copy(from, to, count)?;
        Ok(Done {
            out: Out::Ran,
            cost,
        })
    }

    #[tactic(auto, unfolding(crate::specs::Rows::Search::search_work))]
    pub(crate) fn search_op(
        &mut self,
        op: Search,
        args: &[u32; 8],
        to: &[Dest; 2],
        left: u64,
    ) -> Result<Done, Trap>
        ensures does { Does
            (budgeted left
            (rows.search_work op self.old (slice_index args.now) (dest_by_index to.now)))
            self.new result }
        ensures fit { IsFit self.old → IfOk result (λ done. StaysFit self.new done.out) }
        ensures within { IfOk result (λ done. done.cost ≤ left) }
    {
        match op {
            Search::Mzero => self.mzero(args[0], args[1], left),
            Search::Mcopy => self.mcopy(args[0], args[1], args[2], left),
            Search::Linearsearch => self.linearsearch(args, to[0], left),
            Search::Binarysearch => self.binarysearch(args, to[0], left),
            Search::Linkedsearch => self.linkedsearch(args, to[0], left),
            Search::Malloc => self.malloc(args[0], to[0], left),
            Search::Mfree => self.mfree(args[0], left),
        }
    }
}
