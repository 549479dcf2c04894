//! Searches of structures in memory.

ghost use Rattle.std.specs.Prelude.{◌≡◌, ◌≤◌, IfOk, slice_index};
ghost use Rattle.vm_exec.specs.Answer.{Does};
ghost use Rattle.vm_exec.specs.Machine.{IsFit, StaysFit};
ghost use Rattle.vm_exec.specs.Rows.Searching as rows;
ghost use Rattle.vm_exec.specs.Rows.Work.{budgeted};

use crate::Machine;
use crate::step::{Done, Out};
use crate::trap::charge;
use vm_memory::Trap;
use vm_operand::Dest;
use vm_search::{Found, Query, SearchStop, binary, linear, linked};

impl<'i> Machine<'i> {
    // What a search told: a tick for each structure, and then its answer is stored.
    fn put_found(
        &mut self,
        found: Result<Found, SearchStop>,
        to: Dest,
        left: u64,
    ) -> Result<Done, Trap>
        ensures does { Does (rows.found_in left self.old to found) self.new result }
        ensures fit { IsFit self.old → IfOk result (λ done. StaysFit self.new done.out) }
        ensures within { IfOk result (λ done. done.cost ≤ left) }
    {
        match found {
            Ok(Found { answer, looked }) => {
                let cost = charge(looked, left)?;
                self.store(to, answer)?;
                Ok(Done {
                    out: Out::Ran,
                    cost,
                })
            }
            Err(stop) => Err(Trap::from(stop)),
        }
    }

    pub(crate) fn linearsearch(
        &mut self,
        args: &[u32; 8],
        to: Dest,
        left: u64,
    ) -> Result<Done, Trap>
        ensures does { Does
            (budgeted left (rows.linear_work self.old (slice_index args.now) to))
            self.new result }
        ensures fit { IsFit self.old → IfOk result (λ done. StaysFit self.new done.out) }
        ensures within { IfOk result (λ done. done.cost ≤ left) }
    {
        let query = query_of(args, left);
        let found = linear(&self.memory, &query);
        self.put_found(found, to, left)
    }

    pub(crate) fn binarysearch(
        &mut self,
        args: &[u32; 8],
        to: Dest,
        left: u64,
    ) -> Result<Done, Trap>
        ensures does { Does
            (budgeted left (rows.binary_work self.old (slice_index args.now) to))
            self.new result }
        ensures fit { IsFit self.old → IfOk result (λ done. StaysFit self.new done.out) }
        ensures within { IfOk result (λ done. done.cost ≤ left) }
    {
        let query = query_of(args, left);
        let found = binary(&self.memory, &query);
        self.put_found(found, to, left)
    }

    pub(crate) fn linkedsearch(
        &mut self,
        args: &[u32; 8],
        to: Dest,
        left: u64,
    ) -> Result<Done, Trap>
        ensures does { Does
            (budgeted left (rows.linked_work self.old (slice_index args.now) to))
            self.new result }
        ensures fit { IsFit self.old → IfOk result (λ done. StaysFit self.new done.out) }
        ensures within { IfOk result (λ done. done.cost ≤ left) }
    {
        let query = linked_query(args, left);
        let found = linked(&self.memory, &query);
        self.put_found(found, to, left)
    }
}

// What the loads of a linear or a binary search ask.
fn query_of(args: &[u32; 8], left: u64) -> Query
    ensures { result ≡ rows.query_of (slice_index args.now) left }
{
    Query {
        key: args[0],
        key_size: args[1],
        start: args[2],
        struct_size: args[3],
        count: args[4],
        key_offset: args[5],
        next_offset: 0,
        options: args[6],
        left,
    }
}

// What those of a linked search ask.
fn linked_query(args: &[u32; 8], left: u64) -> Query
    ensures { result ≡ rows.linked_query (slice_index args.now) left }
{
    Query {
        key: args[0],
        key_size: args[1],
        start: args[2],
        struct_size: 0,
        count: 0,
        key_offset: args[3],
        next_offset: args[4],
        options: args[5],
        left,
    }
}
