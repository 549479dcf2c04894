//! Loads and stores.

ghost use Rattle.std.specs.Prelude.{◌≡◌, ◌≢◌, ◌⊎◌, ◌≤◌, ◌+◌, ◌%◌, ◌^◌, length, Err, IsOk, OnOk};
ghost use Rattle.vm_memory.specs.declared.fault.Trap.TheVariants.{NoMemory};
ghost use Rattle.vm_exec.specs.Answer.{Changes, Does, LeavesTwoValues};
ghost use Rattle.vm_exec.specs.Machine.{IsFit};
ghost use Rattle.vm_exec.specs.Rules as rules;
ghost use Rattle.vm_exec.specs.Want.{IsInMemory};
ghost use Rattle.vm_stack.specs.Locals.{IsWidth};
ghost use Rattle.vm_operand.specs.declared.operand.Load.TheVariants as load;
ghost use Rattle.vm_operand.specs.declared.operand.Dest.TheVariants as dest;

use crate::Machine;
use crate::trap::of_stack;
use vm_memory::Trap;
use vm_operand::{Dest, Load};

impl<'i> Machine<'i> {
    /// A load of 1, 2 or 4 bytes.
    #[inline(always)]
    pub(crate) fn load(&mut self, width: u32, from: Load) -> Result<u32, Trap>
        requires { IsWidth width }
        ensures does { Does (rules.operand_loaded width self.old from) self.new result }
        ensures fit { IsFit self.old → OnOk result (IsFit self.new) }
    {
        match from {
            Load::Value(value) => Ok(cut(width, value)),
            Load::At(at) => self.load_at(width, at),
            Load::Local(offset) => self.stack.local(offset, width).map_err(of_stack),
            Load::Pop => {
                let value = self.stack.pop().map_err(of_stack)?;
                Ok(cut(width, value))
            }
        }
    }

    /// A load of four bytes, in a body that is small where it is inlined.
    #[inline(always)]
    pub(crate) fn load_word(&mut self, from: Load) -> Result<u32, Trap>
        ensures does { Does (rules.operand_loaded 4 self.old from) self.new result }
        ensures refusal { result ≢ Err NoMemory }
        ensures memory { self.new.memory ≡ self.old.memory }
        ensures pc { self.new.pc ≡ self.old.pc }
        ensures fit { IsFit self.old → OnOk result (IsFit self.new) }
    {
        match from {
            Load::Value(value) => Ok(value),
            Load::At(at) => self.word(at),
            Load::Local(offset) => self.stack.local(offset, 4).map_err(of_stack),
            Load::Pop => self.pop_word(),
        }
    }

    #[inline(never)]
    fn word(&self, at: u32) -> Result<u32, Trap>
        ensures does { Does (rules.operand_loaded 4 self.now (load.At at)) self.now result }
        ensures refusal { result ≢ Err NoMemory }
    {
        Ok(self.memory.read4(at)?)
    }

    #[inline(always)]
    fn pop_word(&mut self) -> Result<u32, Trap>
        ensures does { Does (rules.operand_loaded 4 self.old load.Pop) self.new result }
        ensures refusal { result ≢ Err NoMemory }
        ensures memory { self.new.memory ≡ self.old.memory }
        ensures pc { self.new.pc ≡ self.old.pc }
        ensures fit { IsFit self.old → OnOk result (IsFit self.new) }
    {
        self.stack.pop().map_err(of_stack)
    }

    #[inline(always)]
    fn load_at(&self, width: u32, at: u32) -> Result<u32, Trap>
        requires { IsWidth width }
        ensures { Does (rules.operand_loaded width self.now (load.At at)) self.now result }
    {
        Ok(match width {
            1 => self.memory.read1(at)?,
            2 => self.memory.read2(at)?,
            _ => self.memory.read4(at)?,
        })
    }

    /// A store of 1, 2 or 4 bytes.
    #[inline(always)]
    pub(crate) fn store_in(&mut self, width: u32, to: Dest, value: u32) -> Result<(), Trap>
        requires { IsWidth width }
        ensures does { Changes (rules.stored_in width self.old to value) self.new result }
        ensures want { result ≡ Err NoMemory → IsInMemory to }
        ensures done { result ≡ Err NoMemory → IsOk (rules.stored_in width self.old to value) }
        ensures fit { IsFit self.old → OnOk result (IsFit self.new) }
    {
        match to {
            Dest::Discard => Ok(()),
            Dest::At(at) => self.store_at(width, at, value),
            Dest::Local(offset) => self.stack.set_local(offset, width, value).map_err(of_stack),
            Dest::Push => self.stack.push(value).map_err(of_stack),
        }
    }

    #[inline(always)]
    fn store_at(&mut self, width: u32, at: u32, value: u32) -> Result<(), Trap>
        requires { IsWidth width }
        ensures does { Changes (rules.stored_in width self.old (dest.At at) value) self.new result }
        ensures done { result ≡ Err NoMemory
            → IsOk (rules.stored_in width self.old (dest.At at) value) }
        ensures fit { IsFit self.old → OnOk result (IsFit self.new) }
    {
        match width {
            1 => self.memory.write1(at, value)?,
            2 => self.memory.write2(at, value)?,
            _ => self.memory.write4(at, value)?,
        }
        Ok(())
    }

    /// A store of four bytes.
    #[inline(always)]
    pub(crate) fn store(&mut self, to: Dest, value: u32) -> Result<(), Trap>
        ensures does { Changes (rules.stored self.old to value) self.new result }
        ensures want { result ≡ Err NoMemory → IsInMemory to }
        ensures done { result ≡ Err NoMemory → IsOk (rules.stored self.old to value) }
        ensures fit { IsFit self.old → OnOk result (IsFit self.new) }
    {
        self.store_in(4, to, value)
    }

    /// Loads from left to right into the places from the index on.
    #[tactic(auto, unfolding(crate::specs::Rules::loaded_all))]
    pub(crate) fn load_all(
        &mut self,
        width: u32,
        loads: &[Load],
        index: usize,
        args: &mut [u32; 8],
    ) -> Result<(), Trap>
        requires width { IsWidth width }
        requires room { index + length loads.now ≤ 8 }
        ensures does { LeavesTwoValues
            (rules.loaded_all width self.old loads.now index args.old)
            self.new args.new result }
        ensures fit { IsFit self.old → OnOk result (IsFit self.new) }
    {
        match loads {
            [] => Ok(()),
            [first, rest @ ..] => {
                args[index] = self.load(width, *first)?;
                self.load_all(width, rest, index + 1, args)
            }
        }
    }
}

// The low bytes of a value.
#[inline(always)]
fn cut(width: u32, value: u32) -> u32
    requires { IsWidth width }
    ensures { result ≡ rules.low_bytes width value }
{
    match width {
        1 => value % 256,
        2 => value % 65536,
        _ => value,
    }
}
