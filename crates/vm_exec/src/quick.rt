//! Runs of quick instructions: arithmetic, arrays, copy, branches, calls and returns below
//! RAMSTART. Each takes one tick, and tells nothing unless the story has quit.

ghost use Rattle.std.specs.Prelude.{◌≡◌, ◌≢◌, ◌<◌, ℕ, List, Err, IfOk, OnOk, false, true};
ghost use Rattle.std.specs.Prelude.{slice_index, IsOk};
ghost use Rattle.vm_exec.specs.Fetch.{Fetches, IsAtHand, loads_of, work_for};
ghost use Rattle.vm_exec.specs.Machine.{IsFit, IsSoundMachine, KeepsImage};
ghost use Rattle.vm_exec.specs.Run.{GoesBy, IfDid, IsQuickOpcode, RunsWithin, StaysOn, StopsAt};
ghost use Rattle.vm_exec.specs.Run.{WorkGives, went_of};
ghost use Rattle.vm_exec.specs.Rules.{branches, calls, returns, with_arguments};
ghost use Rattle.vm_exec.specs.Rows.Function.{tailcalls, throws};
ghost use Rattle.vm_exec.specs.Rows.Work.{Free, IsDone};
ghost use Rattle.vm_exec.specs.Start.{IsOver};
ghost use Rattle.vm_exec.specs.Want.{ArrayMayWant, IsInMemory, IsReturn, ReturnMayWant};
ghost use Rattle.vm_flow.specs.Function.{IsInFront};
ghost use Rattle.vm_memory.specs.declared.fault.Trap.TheVariants.{NoMemory};
ghost use Rattle.vm_exec.specs.declared.text.Text.TheVariants as text;
ghost use Rattle.vm_operand.specs.declared.opcode.Op.TheVariants as op;
ghost use Rattle.vm_operand.specs.declared.opcode.Move.TheVariants.{Copy};
ghost use Rattle.vm_operand.specs.Operands.{OpcodeAt};
ghost use Rattle.vm_exec.specs.declared.fetch.Fetched.{Fetched};
ghost use Rattle.vm_exec.specs.declared.machine.Machine.{Machine};

use crate::Machine;
use crate::fetch::Fetched;
use crate::step::{Done, Out};
use crate::text::Text;
use std::alloc::Global;
use vm_memory::Trap;
use vm_operand::{Array, Branch, Dest, Flow, Math, Move, Op, opcode_in};

/// What a run came to: so many instructions were done, or the story has quit.
#[derive(Clone, Copy, Debug, PartialEq, Eq)]
pub enum Run {
    Did(u64),
    Quits,
}

/// What a quick step came to: the story goes on, or has quit; or it is left to another body, since
/// no quick instruction is at the PC.
#[derive(Clone, Copy, Debug, PartialEq, Eq)]
pub(crate) enum Went {
    On,
    Quits,
    Aside,
}

impl<'i> Machine<'i> {
    /// Does quick instructions, at most so many, up to the first that isn't one and while no text
    /// is in progress. The fault is that of the instruction behind those that were done.
    pub fn run_on(&mut self, alloc: Global, most: u64) -> Result<Run, Trap>
        ensures runs { RunsWithin most self.old self.new result }
        ensures stops { IfDid result (λ k. k < most → StopsAt self.new) }
        ensures fit { IsSoundMachine self.old → IfDid result (λ k. IsSoundMachine self.new) }
        ensures kept { IsSoundMachine self.old → OnOk result (KeepsImage self.old self.new) }
        ensures over { (image : List ℕ) → IsSoundMachine self.old → IsOver image self.old
            → OnOk result (IsOver image self.new) }
    {
        let mut done = 0;
        while done < most && self.is_quiet() {
            match self.quick_step(alloc) {
                Ok(Went::On) => done += 1,
                Ok(Went::Quits) => return Ok(Run::Quits),
                Ok(Went::Aside) => return Ok(Run::Did(done)),
                Err(trap) => return Err(trap),
            }
        }
        Ok(Run::Did(done))
    }

    // Whether no text is in progress.
    #[inline(always)]
    fn is_quiet(&self) -> bool
        ensures quiet { result ≡ true → self.now.text ≡ text.Off }
        ensures busy { result ≡ false → ¬ (self.now.text ≡ text.Off) }
    {
        matches!(self.text, Text::Off)
    }

    // The instruction at the PC, if it is a quick one.
    #[inline(always)]
    fn quick_step(&mut self, alloc: Global) -> Result<Went, Trap>
        ensures does { GoesBy self.old self.new result }
        ensures fit { IsFit self.old → IfOk result (λ went. StaysOn self.new went) }
    {
        let Some(code) = self.memory.code_at(self.pc) else {
            return Ok(Went::Aside);
        };
        let Some((op, place)) = opcode_in(&self.memory, code, self.pc) else {
            return Ok(Went::Aside);
        };
        match op {
            Op::Math(math) => {
                let fetched = self.fetch_math(math, code, place)?;
                self.math_on(math, fetched)
            }
            Op::Array(array) => self.array_step(array, code, place),
            Op::Branch(branch) => {
                let fetched = self.fetch_branch(branch, code, place)?;
                self.branch_on(branch, fetched)
            }
            Op::Move(Move::Copy) => {
                let fetched = self.one_and_store(op, code, place)?;
                self.copy_on(fetched)
            }
            Op::Flow(
                flow @ (Flow::Call
                | Flow::Return
                | Flow::Throw
                | Flow::Tailcall
                | Flow::Callf
                | Flow::Callfi
                | Flow::Callfii
                | Flow::Callfiii),
            ) => self.flow_step(alloc, flow, code, place),
            Op::Flow(Flow::Catch) => Ok(Went::Aside),
            Op::Move(Move::Copys) => Ok(Went::Aside),
            Op::Move(Move::Copyb) => Ok(Went::Aside),
            Op::Move(Move::Sexs) => Ok(Went::Aside),
            Op::Move(Move::Sexb) => Ok(Went::Aside),
            Op::Values(_) => Ok(Went::Aside),
            Op::Stream(_) => Ok(Went::Aside),
            Op::State(_) => Ok(Went::Aside),
            Op::System(_) => Ok(Went::Aside),
            Op::Search(_) => Ok(Went::Aside),
        }
    }

    // A read of an array, or a write.
    #[inline(never)]
    fn array_step(&mut self, array: Array, code: &[u8], place: u32) -> Result<Went, Trap>
        requires { IsAtHand self.old (op.Array array) place code.now }
        ensures does { GoesBy self.old self.new result }
        ensures fit { IsFit self.old → IfOk result (λ went. StaysOn self.new went) }
    {
        let fetched = self.fetch_array(array, code, place)?;
        self.array_on(array, fetched)
    }

    // A call or a return.
    #[inline(never)]
    #[tactic(auto, unfolding(crate::specs::Rows::Function::flow_work))]
    fn flow_step(
        &mut self,
        alloc: Global,
        flow: Flow,
        code: &[u8],
        place: u32,
    ) -> Result<Went, Trap>
        requires here { IsAtHand self.old (op.Flow flow) place code.now }
        requires quick { IsQuickOpcode (op.Flow flow) }
        ensures does { GoesBy self.old self.new result }
        ensures fit { IsFit self.old → IfOk result (λ went. StaysOn self.new went) }
    {
        // an arm for each, so that each has the code of its own rule alone
        let op = Op::Flow(flow);
        match flow {
            Flow::Return => {
                let fetched = self.one(op, code, place)?;
                self.give_back_on(fetched.first)
            }
            Flow::Throw => {
                let fetched = self.two(op, code, place)?;
                self.throw_on(fetched.first, fetched.second)
            }
            Flow::Tailcall => {
                let fetched = self.two(op, code, place)?;
                self.tailcall_on(alloc, fetched.first, fetched.second)
            }
            Flow::Call => {
                let fetched = self.two_and_store(op, code, place)?;
                self.call_with_on(alloc, fetched.first, fetched.second, fetched.to)
            }
            Flow::Callf => {
                let fetched = self.one_and_store(op, code, place)?;
                self.call_on(alloc, fetched.first, &[], fetched.to)
            }
            Flow::Callfi => {
                let fetched = self.two_and_store(op, code, place)?;
                self.call_on(alloc, fetched.first, &[fetched.second], fetched.to)
            }
            Flow::Callfii => {
                let fetched = self.three_and_store(op, code, place)?;
                let args = [fetched.second, fetched.third];
                self.call_on(alloc, fetched.first, &args, fetched.to)
            }
            Flow::Callfiii => {
                let fetched = self.four_and_store(op, code, place)?;
                let args = [fetched.second, fetched.third, fetched.fourth];
                self.call_on(alloc, fetched.first, &args, fetched.to)
            }
            Flow::Catch => unreachable!(),
        }
    }

    // The array's row.
    #[inline(always)]
    fn array_on(&mut self, array: Array, fetched: Fetched) -> Result<Went, Trap>
        ensures does { WorkGives (work_for (op.Array array) self.old fetched) self.new result }
        ensures want { result ≡ Err NoMemory → ArrayMayWant array fetched.to }
        ensures done { result ≡ Err NoMemory
            → IsDone (work_for (op.Array array) self.old fetched) }
        ensures fit { IsFit self.old → IfOk result (λ went. StaysOn self.new went) }
    {
        let args = fetched.args();
        let done = self.array_op(array, &args, &[fetched.to, Dest::Discard], 0)?;
        Ok(done.went())
    }

    // The value of an operation is stored.
    #[inline(always)]
    #[tactic(auto, unfolding(crate::specs::Rows::Math::math_work))]
    fn math_on(&mut self, math: Math, fetched: Fetched) -> Result<Went, Trap>
        ensures does { WorkGives (work_for (op.Math math) self.old fetched) self.new result }
        ensures want { result ≡ Err NoMemory → IsInMemory fetched.to }
        ensures done { result ≡ Err NoMemory
            → IsDone (work_for (op.Math math) self.old fetched) }
        ensures fit { IsFit self.old → IfOk result (λ went. StaysOn self.new went) }
    {
        let value = math.apply(fetched.first, fetched.second)?;
        self.store(fetched.to, value)?;
        Ok(Went::On)
    }

    // A load is stored.
    #[inline(always)]
    #[tactic(auto, unfolding(crate::specs::Rows::Moving::move_work))]
    fn copy_on(&mut self, fetched: Fetched) -> Result<Went, Trap>
        ensures does { WorkGives (work_for (op.Move Copy) self.old fetched) self.new result }
        ensures want { result ≡ Err NoMemory → IsInMemory fetched.to }
        ensures done { result ≡ Err NoMemory
            → IsDone (work_for (op.Move Copy) self.old fetched) }
        ensures fit { IsFit self.old → IfOk result (λ went. StaysOn self.new went) }
    {
        self.store(fetched.to, fetched.first)?;
        Ok(Went::On)
    }

    // The story goes on where the branch leads.
    #[inline(always)]
    #[tactic(auto, unfolding(crate::specs::Rows::Branch::branch_work))]
    fn branch_on(&mut self, branch: Branch, fetched: Fetched) -> Result<Went, Trap>
        ensures does { WorkGives (work_for (op.Branch branch) self.old fetched) self.new result }
        ensures want { result ≡ Err NoMemory
            → IsReturn branch (slice_index (loads_of fetched)) × ReturnMayWant self.old }
        ensures done { result ≡ Err NoMemory
            → IsDone (work_for (op.Branch branch) self.old fetched) }
        ensures fit { IsFit self.old → IfOk result (λ went. StaysOn self.new went) }
    {
        let holds = branch.holds(fetched.first, fetched.second);
        match branch {
            Branch::Jump => self.jump_on(fetched.first),
            Branch::Jumpabs => {
                self.pc = fetched.first;
                Ok(Went::On)
            }
            _ if !holds => Ok(Went::On),
            Branch::Jz | Branch::Jnz => self.jump_on(fetched.second),
            _ => self.jump_on(fetched.third),
        }
    }

    // By an offset, of which 0 and 1 return that value.
    #[inline(always)]
    fn jump_on(&mut self, offset: u32) -> Result<Went, Trap>
        ensures does { WorkGives (Free (branches self.old offset)) self.new result }
        ensures want { result ≡ Err NoMemory → (offset < 2) × ReturnMayWant self.old }
        ensures done { result ≡ Err NoMemory
            → IsOk (branches self.old offset) }
        ensures fit { IsFit self.old → IfOk result (λ went. StaysOn self.new went) }
    {
        if offset == 0 || offset == 1 {
            return self.return_on(offset);
        }
        self.pc = self.pc.wrapping_add(offset).wrapping_sub(2);
        Ok(Went::On)
    }

    // The function returns, by a branch.
    #[inline(never)]
    fn return_on(&mut self, value: u32) -> Result<Went, Trap>
        ensures does { WorkGives (Free (returns self.old value)) self.new result }
        ensures want { result ≡ Err NoMemory → ReturnMayWant self.old }
        ensures done { result ≡ Err NoMemory
            → IsOk (returns self.old value) }
        ensures fit { IsFit self.old → IfOk result (λ went. StaysOn self.new went) }
    {
        self.give_back_on(value)
    }

    // The function returns.
    #[inline(always)]
    fn give_back_on(&mut self, value: u32) -> Result<Went, Trap>
        ensures does { WorkGives (Free (returns self.old value)) self.new result }
        ensures want { result ≡ Err NoMemory → ReturnMayWant self.old }
        ensures done { result ≡ Err NoMemory
            → IsOk (returns self.old value) }
        ensures fit { IsFit self.old → IfOk result (λ went. StaysOn self.new went) }
    {
        let done = self.give_back(value)?;
        Ok(done.went())
    }

    // The story goes on at the stub of the token.
    #[inline(always)]
    fn throw_on(&mut self, value: u32, token: u32) -> Result<Went, Trap>
        ensures does { WorkGives (Free (throws self.old value token)) self.new result }
        ensures fit { IsFit self.old → IfOk result (λ went. StaysOn self.new went) }
    {
        let done = self.throw(value, token)?;
        Ok(done.went())
    }

    // The function begins, over a stub.
    #[inline(always)]
    fn call_on(&mut self, alloc: Global, at: u32, args: &[u32], to: Dest) -> Result<Went, Trap>
        ensures does { WorkGives (Free (calls self.old at args.now to)) self.new result }
        ensures want { IsInFront self.old.memory at → result ≢ Err NoMemory }
        ensures fit { IsFit self.old → IfOk result (λ went. StaysOn self.new went) }
    {
        let done = self.call(alloc, at, args, to)?;
        Ok(done.went())
    }

    // The same with arguments off the stack.
    #[inline(always)]
    fn call_with_on(&mut self, alloc: Global, at: u32, count: u32, to: Dest) -> Result<Went, Trap>
        ensures does { WorkGives
            (Free (with_arguments self.old count (λ n args. calls n at args to))) self.new result }
        ensures fit { IsFit self.old → IfOk result (λ went. StaysOn self.new went) }
    {
        let done = self.call_with(alloc, at, count, to)?;
        Ok(done.went())
    }

    // The function begins in place of the current one, with arguments off the stack.
    #[inline(always)]
    fn tailcall_on(&mut self, alloc: Global, at: u32, count: u32) -> Result<Went, Trap>
        ensures does { WorkGives (Free (with_arguments self.old count (tailcalls at)))
            self.new result }
        ensures fit { IsFit self.old → IfOk result (λ went. StaysOn self.new went) }
    {
        let done = self.tailcall(alloc, at, count)?;
        Ok(done.went())
    }

    #[inline(always)]
    fn fetch_math(&mut self, math: Math, code: &[u8], place: u32) -> Result<Fetched, Trap>
        requires here { IsAtHand self.old (op.Math math) place code.now }
        ensures fetched { Fetches self.old (op.Math math) self.new result }
        ensures fit { IsFit self.old → IfOk result (λ _. IsFit self.new) }
    {
        if math.is_binary() {
            self.two_and_store(Op::Math(math), code, place)
        } else {
            self.one_and_store(Op::Math(math), code, place)
        }
    }

    #[inline(always)]
    fn fetch_array(&mut self, array: Array, code: &[u8], place: u32) -> Result<Fetched, Trap>
        requires here { IsAtHand self.old (op.Array array) place code.now }
        ensures fetched { Fetches self.old (op.Array array) self.new result }
        ensures fit { IsFit self.old → IfOk result (λ _. IsFit self.new) }
    {
        if array.reads() {
            self.two_and_store(Op::Array(array), code, place)
        } else {
            self.three(Op::Array(array), code, place)
        }
    }

    #[inline(always)]
    fn fetch_branch(&mut self, branch: Branch, code: &[u8], place: u32) -> Result<Fetched, Trap>
        requires here { IsAtHand self.old (op.Branch branch) place code.now }
        ensures fetched { Fetches self.old (op.Branch branch) self.new result }
        ensures fit { IsFit self.old → IfOk result (λ _. IsFit self.new) }
    {
        match branch.loads() {
            1 => self.one(Op::Branch(branch), code, place),
            2 => self.two(Op::Branch(branch), code, place),
            _ => self.three(Op::Branch(branch), code, place),
        }
    }
}

impl Done {
    // Whether the story has quit; nothing else is told.
    #[inline(always)]
    fn went(self) -> Went
        ensures { result ≡ went_of self.out }
    {
        match self.out {
            Out::Quit => Went::Quits,
            _ => Went::On,
        }
    }
}
