//! Instructions below RAMSTART, whose bytes are at hand: each load is taken as it is decoded.

ghost use Rattle.std.specs.Prelude.{◌≡◌, ◌≤◌, ◌<◌, ◌+◌, ℕ, [], ◌∷◌, IfErr, IfOk, IsErr, OnOk};
ghost use Rattle.std.specs.Prelude.{Err, Ok, Some};
ghost use Rattle.vm_exec.specs.Fetch.{Fetches, IsAtHand, Reads, Takes, loads_of};
ghost use Rattle.vm_exec.specs.Machine.{IsFit};
ghost use Rattle.vm_exec.specs.Row as row;
ghost use Rattle.vm_memory.specs.Code.{IsCode};
ghost use Rattle.vm_operand.specs.Fault.{operation_fault_code};
ghost use Rattle.vm_operand.specs.Instruction.{instruction_at};
ghost use Rattle.vm_operand.specs.Opcode.{kinds_of};
ghost use Rattle.vm_operand.specs.declared.fault.OpFault.{OpFault};
ghost use Rattle.vm_operand.specs.declared.instruction.Instr.{Instr};
ghost use Rattle.vm_operand.specs.declared.opcode.Op.{Op};
ghost use Rattle.vm_operand.specs.declared.operand.Kind.TheVariants as kind;
ghost use Rattle.vm_memory.specs.declared.fault.Trap.TheVariants.{Fault, NoMemory};

use crate::Machine;
use crate::trap::BAD_OPCODE;
use vm_memory::{MAX_SIZE, Trap};
use vm_operand::{Dest, Op, decode, dest_in, load_in};

/// The values of an instruction's loads, with zeros up to the fourth, and where it stores.
#[derive(Clone, Copy, Debug, PartialEq, Eq)]
pub(crate) struct Fetched {
    pub(crate) first: u32,
    pub(crate) second: u32,
    pub(crate) third: u32,
    pub(crate) fourth: u32,
    pub(crate) to: Dest,
}

impl Fetched {
    /// The values of the loads, and zeros up to the eighth.
    #[inline(always)]
    pub(crate) fn args(self) -> [u32; 8]
        ensures { result ≡ loads_of self }
    {
        [self.first, self.second, self.third, self.fourth, 0, 0, 0, 0]
    }
}

/// The value of a load, and the place after its bytes.
#[derive(Clone, Copy, Debug, PartialEq, Eq)]
pub(crate) struct Taken {
    pub(crate) value: u32,
    pub(crate) next: u32,
}

impl<'i> Machine<'i> {
    // A load by the number of its mode.
    #[inline(always)]
    fn take(&mut self, code: &[u8], number: u32, at: u32) -> Result<Taken, Trap>
        requires here { IsCode self.old.memory self.old.pc code.now }
        requires limit { self.old.pc + 32 ≤ MAX_SIZE }
        requires mode { number < 16 }
        requires low { self.old.pc ≤ at }
        requires high { at + 4 ≤ self.old.pc + 32 }
        ensures does { Takes self.old number at self.new result }
        ensures above { IfOk result (λ x. at ≤ x.next) }
        ensures below { IfOk result (λ x. x.next ≤ at + 4) }
        ensures memory { OnOk result (self.new.memory ≡ self.old.memory) }
        ensures pc { OnOk result (self.new.pc ≡ self.old.pc) }
        ensures code { OnOk result (IsCode self.new.memory self.new.pc code.now) }
        ensures fit { IsFit self.old → OnOk result (IsFit self.new) }
    {
        let Some((load, next)) = load_in(&self.memory, code, self.pc, number, at) else {
            return Err(self.refusal(BAD_OPCODE));
        };
        match self.load_word(load) {
            Ok(value) => Ok(Taken { value, next }),
            Err(trap) => Err(self.refusal(trap)),
        }
    }

    // A store by the number of its mode, and the place after its bytes.
    #[inline(always)]
    fn find(&self, code: &[u8], number: u32, at: u32) -> Result<(Dest, u32), Trap>
        requires here { IsCode self.now.memory self.now.pc code.now }
        requires limit { self.now.pc + 32 ≤ MAX_SIZE }
        requires mode { number < 16 }
        requires low { self.now.pc ≤ at }
        requires high { at + 4 ≤ self.now.pc + 32 }
        ensures does { Reads self.now number at result }
    {
        match dest_in(&self.memory, code, self.pc, number, at) {
            Some(found) => Ok(found),
            None => Err(self.refusal(BAD_OPCODE)),
        }
    }

    // Why the instruction at the PC is refused: that it can't be read, or else this.
    #[cold]
    #[inline(never)]
    fn refusal(&self, trap: Trap) -> Trap
        ensures unread { (f : OpFault) → instruction_at self.now.memory self.now.pc ≡ Err f
            → result ≡ Fault (operation_fault_code f) }
        ensures read { (i : Instr) → instruction_at self.now.memory self.now.pc ≡ Ok i
            → result ≡ trap }
        ensures want { result ≡ NoMemory → trap ≡ NoMemory }
    {
        match decode(&self.memory, self.pc) {
            Ok(_) => trap,
            Err(fault) => Trap::from(fault),
        }
    }

    /// One load.
    #[inline(always)]
    pub(crate) fn one(&mut self, op: Op, code: &[u8], place: u32) -> Result<Fetched, Trap>
        requires here { IsAtHand self.old op place code.now }
        requires kinds { kinds_of op ≡ kind.Load ∷ [] }
        requires words { row.width_of (Some op) ≡ 4 }
        ensures fetched { Fetches self.old op self.new result }
        ensures fit { IsFit self.old → OnOk result (IsFit self.new) }
    {
        let modes = self.memory.code1(code, self.pc, place);
        let first = self.take(code, modes % 16, place + 1)?;
        self.pc = first.next;
        Ok(Fetched {
            first: first.value,
            second: 0,
            third: 0,
            fourth: 0,
            to: Dest::Discard,
        })
    }

    /// One load and a store.
    #[inline(always)]
    pub(crate) fn one_and_store(&mut self, op: Op, code: &[u8], place: u32) -> Result<Fetched, Trap>
        requires here { IsAtHand self.old op place code.now }
        requires kinds { kinds_of op ≡ kind.Load ∷ kind.Store ∷ [] }
        requires words { row.width_of (Some op) ≡ 4 }
        ensures fetched { Fetches self.old op self.new result }
        ensures fit { IsFit self.old → OnOk result (IsFit self.new) }
    {
        let modes = self.memory.code1(code, self.pc, place);
        let first = self.take(code, modes % 16, place + 1)?;
        let (to, next) = self.find(code, modes / 16, first.next)?;
        self.pc = next;
        Ok(Fetched {
            first: first.value,
            second: 0,
            third: 0,
            fourth: 0,
            to,
        })
    }

    /// Two loads.
    #[inline(always)]
    pub(crate) fn two(&mut self, op: Op, code: &[u8], place: u32) -> Result<Fetched, Trap>
        requires here { IsAtHand self.old op place code.now }
        requires kinds { kinds_of op ≡ kind.Load ∷ kind.Load ∷ [] }
        requires words { row.width_of (Some op) ≡ 4 }
        ensures fetched { Fetches self.old op self.new result }
        ensures fit { IsFit self.old → OnOk result (IsFit self.new) }
    {
        let modes = self.memory.code1(code, self.pc, place);
        let first = self.take(code, modes % 16, place + 1)?;
        let second = self.take(code, modes / 16, first.next)?;
        self.pc = second.next;
        Ok(Fetched {
            first: first.value,
            second: second.value,
            third: 0,
            fourth: 0,
            to: Dest::Discard,
        })
    }

    /// Two loads and a store.
    #[inline(always)]
    pub(crate) fn two_and_store(&mut self, op: Op, code: &[u8], place: u32) -> Result<Fetched, Trap>
        requires here { IsAtHand self.old op place code.now }
        requires kinds { kinds_of op ≡ kind.Load ∷ kind.Load ∷ kind.Store ∷ [] }
        requires words { row.width_of (Some op) ≡ 4 }
        ensures fetched { Fetches self.old op self.new result }
        ensures fit { IsFit self.old → OnOk result (IsFit self.new) }
    {
        let modes = self.memory.code1(code, self.pc, place);
        let more = self.memory.code1(code, self.pc, place + 1);
        let first = self.take(code, modes % 16, place + 2)?;
        let second = self.take(code, modes / 16, first.next)?;
        let (to, next) = self.find(code, more % 16, second.next)?;
        self.pc = next;
        Ok(Fetched {
            first: first.value,
            second: second.value,
            third: 0,
            fourth: 0,
            to,
        })
    }

    /// Three loads.
    #[inline(always)]
    pub(crate) fn three(&mut self, op: Op, code: &[u8], place: u32) -> Result<Fetched, Trap>
        requires here { IsAtHand self.old op place code.now }
        requires kinds { kinds_of op ≡ kind.Load ∷ kind.Load ∷ kind.Load ∷ [] }
        requires words { row.width_of (Some op) ≡ 4 }
        ensures fetched { Fetches self.old op self.new result }
        ensures fit { IsFit self.old → OnOk result (IsFit self.new) }
    {
        let modes = self.memory.code1(code, self.pc, place);
        let more = self.memory.code1(code, self.pc, place + 1);
        let first = self.take(code, modes % 16, place + 2)?;
        let second = self.take(code, modes / 16, first.next)?;
        let third = self.take(code, more % 16, second.next)?;
        self.pc = third.next;
        Ok(Fetched {
            first: first.value,
            second: second.value,
            third: third.value,
            fourth: 0,
            to: Dest::Discard,
        })
    }

    /// Three loads and a store.
    #[inline(always)]
    pub(crate) fn three_and_store(
        &mut self,
        op: Op,
        code: &[u8],
        place: u32,
    ) -> Result<Fetched, Trap>
        requires here { IsAtHand self.old op place code.now }
        requires kinds { kinds_of op ≡ kind.Load ∷ kind.Load ∷ kind.Load ∷ kind.Store ∷ [] }
        requires words { row.width_of (Some op) ≡ 4 }
        ensures fetched { Fetches self.old op self.new result }
        ensures fit { IsFit self.old → OnOk result (IsFit self.new) }
    {
        let modes = self.memory.code1(code, self.pc, place);
        let more = self.memory.code1(code, self.pc, place + 1);
        let first = self.take(code, modes % 16, place + 2)?;
        let second = self.take(code, modes / 16, first.next)?;
        let third = self.take(code, more % 16, second.next)?;
        let (to, next) = self.find(code, more / 16, third.next)?;
        self.pc = next;
        Ok(Fetched {
            first: first.value,
            second: second.value,
            third: third.value,
            fourth: 0,
            to,
        })
    }

    /// Four loads and a store.
    #[inline(always)]
    pub(crate) fn four_and_store(
        &mut self,
        op: Op,
        code: &[u8],
        place: u32,
    ) -> Result<Fetched, Trap>
        requires here { IsAtHand self.old op place code.now }
        requires kinds { kinds_of op
            ≡ kind.Load ∷ kind.Load ∷ kind.Load ∷ kind.Load ∷ kind.Store ∷ [] }
        requires words { row.width_of (Some op) ≡ 4 }
        ensures fetched { Fetches self.old op self.new result }
        ensures fit { IsFit self.old → OnOk result (IsFit self.new) }
    {
        let modes = self.memory.code1(code, self.pc, place);
        let more = self.memory.code1(code, self.pc, place + 1);
        let last = self.memory.code1(code, self.pc, place + 2);
        let first = self.take(code, modes % 16, place + 3)?;
        let second = self.take(code, modes / 16, first.next)?;
        let third = self.take(code, more % 16, second.next)?;
        let fourth = self.take(code, more / 16, third.next)?;
        let (to, next) = self.find(code, last % 16, fourth.next)?;
        self.pc = next;
        Ok(Fetched {
            first: first.value,
            second: second.value,
            third: third.value,
            fourth: fourth.value,
            to,
        })
    }
}
