//! Calls, returns, catch and throw.

ghost use Rattle.std.specs.Prelude.{◌≡◌, ◌≢◌, ◌≤◌, IfOk, IsOk, OnOk, slice_index, length, Ok, Err};
ghost use Rattle.vm_exec.specs.Answer.{Changes, Does, MakesValue};
ghost use Rattle.vm_exec.specs.Machine.{IsFit, StaysFit};
ghost use Rattle.vm_exec.specs.Row.{dest_by_index};
ghost use Rattle.vm_exec.specs.Rows.Function as rows;
ghost use Rattle.vm_exec.specs.Rows.Work.{DoesAtNoCost, budgeted};
ghost use Rattle.vm_exec.specs.Rules as rules;
ghost use Rattle.vm_exec.specs.Want.{ReturnMayWant};
ghost use Rattle.vm_flow.specs.Function.{IsInFront};
ghost use Rattle.vm_memory.specs.declared.fault.Trap.TheVariants.{NoMemory};
ghost use Rattle.vm_stack.specs.Chain.{IsReady};

use crate::Machine;
use crate::arguments::take_arguments;
use crate::fields::store_fields;
use crate::step::{Done, Out};
use crate::trap::{BAD_STUB, of_flow, of_stack};
use smallvec::SmallVec;
use std::alloc::Global;
use vm_flow::{call, give_back, tail_call, throw};
use vm_memory::Trap;
use vm_operand::{Dest, Flow};
use vm_stack::Stub;

impl<'i> Machine<'i> {
    // The stub that stores a result there and goes on behind this instruction.
    #[inline(always)]
    #[tactic(auto, using(crate::proofs::FieldsLemmas::stub_is))]
    fn stub_for(&self, to: Dest) -> Stub
        ensures { result ≡ rules.stub_for self.now to }
    {
        let (kind, at) = store_fields(to);
        Stub {
            kind,
            at,
            pc: self.pc,
            frame: self.stack.frame(),
        }
    }

    #[inline(always)]
    pub(crate) fn push_stub_for(&mut self, to: Dest) -> Result<(), Trap>
        ensures does { Changes (rules.with_stub self.old to) self.new result }
        ensures refusal { result ≢ Err NoMemory }
        ensures memory { self.new.memory ≡ self.old.memory }
        ensures fit { IsFit self.old → OnOk result (IsFit self.new) }
        ensures ready { IsFit self.old → OnOk result (IsReady self.new.stack) }
    {
        let stub = self.stub_for(to);
        self.stack.push_stub(stub).map_err(of_stack)
    }

    /// The function begins, over what is on the stack.
    #[inline(always)]
    pub(crate) fn enter(&mut self, alloc: Global, at: u32, args: &[u32]) -> Result<Done, Trap>
        ensures does { DoesAtNoCost (rules.enters self.old at args.now) self.new result }
        ensures front { IsInFront self.old.memory at → result ≢ Err NoMemory }
        ensures fit { IsFit self.old → IsReady self.old.stack
            → IfOk result (λ done. StaysFit self.new done.out) }
    {
        self.pc = call(alloc, &self.memory, &mut self.stack, at, args).map_err(of_flow)?;
        self.tell(Out::Ran)
    }

    /// A call whose result is stored there.
    #[inline(always)]
    pub(crate) fn call(
        &mut self,
        alloc: Global,
        at: u32,
        args: &[u32],
        to: Dest,
    ) -> Result<Done, Trap>
        ensures does { DoesAtNoCost (rules.calls self.old at args.now to) self.new result }
        ensures front { IsInFront self.old.memory at → result ≢ Err NoMemory }
        ensures fit { IsFit self.old → IfOk result (λ done. StaysFit self.new done.out) }
    {
        self.push_stub_for(to)?;
        self.enter(alloc, at, args)
    }

    pub(crate) fn call_with(
        &mut self,
        alloc: Global,
        at: u32,
        count: u32,
        to: Dest,
    ) -> Result<Done, Trap>
        ensures does { DoesAtNoCost
            (rules.with_arguments self.old count (λ n args. rules.calls n at args to))
            self.new result }
        ensures fit { IsFit self.old → IfOk result (λ done. StaysFit self.new done.out) }
    {
        let mut args = SmallVec::new(alloc);
        take_arguments(&mut self.stack, count, &mut args)?;
        self.call(alloc, at, args.as_slice(), to)
    }

    /// The function begins in place of the current one.
    fn enter_over(&mut self, alloc: Global, at: u32, args: &[u32]) -> Result<Done, Trap>
        ensures does { DoesAtNoCost (rows.tailcalls at self.old args.now) self.new result }
        ensures fit { IsFit self.old → IfOk result (λ done. StaysFit self.new done.out) }
    {
        self.pc = tail_call(alloc, &self.memory, &mut self.stack, at, args).map_err(of_flow)?;
        self.tell(Out::Ran)
    }

    pub(crate) fn tailcall(&mut self, alloc: Global, at: u32, count: u32) -> Result<Done, Trap>
        ensures does { DoesAtNoCost
            (rules.with_arguments self.old count (rows.tailcalls at))
            self.new result }
        ensures fit { IsFit self.old → IfOk result (λ done. StaysFit self.new done.out) }
    {
        let mut args = SmallVec::new(alloc);
        take_arguments(&mut self.stack, count, &mut args)?;
        self.enter_over(alloc, at, args.as_slice())
    }

    /// The story goes on at a stub, whose result is the value; a text drops it. Fault 13 for a stub
    /// of no type.
    #[inline(always)]
    fn resume_at(&mut self, stub: Stub, value: u32) -> Result<Done, Trap>
        ensures does { DoesAtNoCost (rules.resumes self.old stub value) self.new result }
        ensures want { result ≡ Err NoMemory → stub.kind ≡ 1 }
        ensures done { result ≡ Err NoMemory → IsOk (rules.resumes self.old stub value) }
        ensures fit { IsFit self.old → IfOk result (λ done. StaysFit self.new done.out) }
    {
        if stub.kind > 3 {
            self.resume_text(stub)?;
            return self.tell(Out::Ran);
        }
        let to = stub_dest(stub)?;
        self.pc = stub.pc;
        self.put(to, value)
    }

    /// A return from the current function; that of the start function ends the story.
    #[inline(always)]
    pub(crate) fn give_back(&mut self, value: u32) -> Result<Done, Trap>
        ensures does { DoesAtNoCost (rules.returns self.old value) self.new result }
        ensures want { result ≡ Err NoMemory → ReturnMayWant self.old }
        ensures done { result ≡ Err NoMemory → IsOk (rules.returns self.old value) }
        ensures fit { IsFit self.old → IfOk result (λ done. StaysFit self.new done.out) }
    {
        match give_back(&mut self.stack).map_err(of_flow)? {
            Some(stub) => self.resume_at(stub, value),
            None => self.tell(Out::Quit),
        }
    }

    fn store_length(&mut self, to: Dest) -> Result<(), Trap>
        ensures does { Changes
            (rules.stored self.old to (length self.old.stack.bytes))
            self.new result }
        ensures fit { IsFit self.old → OnOk result (IsFit self.new) }
    {
        let token = self.stack.length();
        self.store(to, token)
    }

    fn catch(&mut self, to: Dest, offset: u32) -> Result<Done, Trap>
        ensures does { DoesAtNoCost (rows.catches self.old to offset) self.new result }
        ensures fit { IsFit self.old → IfOk result (λ done. StaysFit self.new done.out) }
    {
        self.push_stub_for(to)?;
        self.store_length(to)?;
        self.branch(offset)
    }

    pub(crate) fn throw(&mut self, value: u32, token: u32) -> Result<Done, Trap>
        ensures does { DoesAtNoCost (rows.throws self.old value token) self.new result }
        ensures fit { IsFit self.old → IfOk result (λ done. StaysFit self.new done.out) }
    {
        let stub = throw(&mut self.stack, token).map_err(of_flow)?;
        self.resume_at(stub, value)
    }

    #[inline(always)]
    #[tactic(auto, unfolding(crate::specs::Rows::Function::flow_work))]
    pub(crate) fn flow_op(
        &mut self,
        alloc: Global,
        op: Flow,
        args: &[u32; 8],
        to: &[Dest; 2],
        left: u64,
    ) -> Result<Done, Trap>
        ensures does { Does
            (budgeted left
            (rows.flow_work op self.old (slice_index args.now) (dest_by_index to.now)))
            self.new result }
        ensures fit { IsFit self.old → IfOk result (λ done. StaysFit self.new done.out) }
        ensures within { IfOk result (λ done. done.cost ≤ left) }
    {
        match op {
            Flow::Call => self.call_with(alloc, args[0], args[1], to[0]),
            Flow::Return => self.give_back(args[0]),
            Flow::Catch => self.catch(to[0], args[0]),
            Flow::Throw => self.throw(args[0], args[1]),
            Flow::Tailcall => self.tailcall(alloc, args[0], args[1]),
            Flow::Callf => self.call(alloc, args[0], &[], to[0]),
            Flow::Callfi => self.call(alloc, args[0], &[args[1]], to[0]),
            Flow::Callfii => self.call(alloc, args[0], &[args[1], args[2]], to[0]),
            Flow::Callfiii => self.call(alloc, args[0], &[args[1], args[2], args[3]], to[0]),
        }
    }
}

// Where the result goes that a stub waits for.
#[inline(always)]
pub(crate) fn stub_dest(stub: Stub) -> Result<Dest, Trap>
    ensures value { MakesValue (rules.stub_dest stub) result }
    ensures refusal { result ≢ Err NoMemory }
{
    match stub.kind {
        0 => Ok(Dest::Discard),
        1 => Ok(Dest::At(stub.at)),
        2 => Ok(Dest::Local(stub.at)),
        3 => Ok(Dest::Push),
        _ => Err(BAD_STUB),
    }
}
