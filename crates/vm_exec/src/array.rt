//! Array data.

ghost use Rattle.std.specs.Prelude.{◌≡◌, ◌≤◌, ◌<◌, ◌+◌, ◌^◌, IfOk, OnOk, slice_index, Err, IsOk};
ghost use Rattle.vm_exec.specs.Answer.{Does};
ghost use Rattle.vm_exec.specs.Machine.{IsFit, StaysFit};
ghost use Rattle.vm_exec.specs.Row.{dest_by_index};
ghost use Rattle.vm_exec.specs.Rows.Array as rows;
ghost use Rattle.vm_exec.specs.Rows.Work.{DoesAtNoCost, IsDone, budgeted};
ghost use Rattle.vm_exec.specs.Rules as rules;
ghost use Rattle.vm_exec.specs.Want.{ArrayMayWant, IsInMemory};
ghost use Rattle.vm_memory.specs.declared.fault.Trap.TheVariants.{NoMemory};

use crate::Machine;
use crate::step::{Done, Out};
use vm_memory::Trap;
use vm_operand::{Array, Dest};

impl<'i> Machine<'i> {
    #[inline(always)]
    fn aload(&mut self, from: u32, index: u32, to: Dest) -> Result<Done, Trap>
        ensures does { DoesAtNoCost
            (rules.reads_to self.old to 4 (rows.element 4 from index))
            self.new result }
        ensures want { result ≡ Err NoMemory → IsInMemory to }
        ensures done { result ≡ Err NoMemory
            → IsOk (rules.reads_to self.old to 4 (rows.element 4 from index)) }
        ensures fit { IsFit self.old → IfOk result (λ done. StaysFit self.new done.out) }
    {
        let value = self.memory.read4(from.wrapping_add(index.wrapping_mul(4)))?;
        self.put(to, value)
    }

    #[inline(always)]
    fn aloads(&mut self, from: u32, index: u32, to: Dest) -> Result<Done, Trap>
        ensures does { DoesAtNoCost
            (rules.reads_to self.old to 2 (rows.element 2 from index))
            self.new result }
        ensures want { result ≡ Err NoMemory → IsInMemory to }
        ensures done { result ≡ Err NoMemory
            → IsOk (rules.reads_to self.old to 2 (rows.element 2 from index)) }
        ensures fit { IsFit self.old → IfOk result (λ done. StaysFit self.new done.out) }
    {
        let value = self.memory.read2(from.wrapping_add(index.wrapping_mul(2)))?;
        self.put(to, value)
    }

    #[inline(always)]
    fn aloadb(&mut self, from: u32, index: u32, to: Dest) -> Result<Done, Trap>
        ensures does { DoesAtNoCost
            (rules.reads_to self.old to 1 (rules.wrap (from + index)))
            self.new result }
        ensures want { result ≡ Err NoMemory → IsInMemory to }
        ensures done { result ≡ Err NoMemory
            → IsOk (rules.reads_to self.old to 1 (rules.wrap (from + index))) }
        ensures fit { IsFit self.old → IfOk result (λ done. StaysFit self.new done.out) }
    {
        let value = self.memory.read1(from.wrapping_add(index))?;
        self.put(to, value)
    }

    #[inline(always)]
    fn aloadbit(&mut self, from: u32, index: u32, to: Dest) -> Result<Done, Trap>
        ensures does { DoesAtNoCost (rows.loads_bit self.old from index to) self.new result }
        ensures want { result ≡ Err NoMemory → IsInMemory to }
        ensures done { result ≡ Err NoMemory
            → IsOk (rows.loads_bit self.old from index to) }
        ensures fit { IsFit self.old → IfOk result (λ done. StaysFit self.new done.out) }
    {
        let byte = self.memory.read1(byte_with_bit(from, index))?;
        self.put(to, bit(byte, index % 8))
    }

    #[inline(always)]
    fn astore(&mut self, from: u32, index: u32, value: u32) -> Result<Done, Trap>
        ensures does { DoesAtNoCost
            (rules.writes self.old 4 (rows.element 4 from index) value)
            self.new result }
        ensures done { result ≡ Err NoMemory
            → IsOk (rules.writes self.old 4 (rows.element 4 from index) value) }
        ensures fit { IsFit self.old → IfOk result (λ done. StaysFit self.new done.out) }
    {
        self.memory
            .write4(from.wrapping_add(index.wrapping_mul(4)), value)?;
        self.tell(Out::Ran)
    }

    #[inline(always)]
    fn astores(&mut self, from: u32, index: u32, value: u32) -> Result<Done, Trap>
        ensures does { DoesAtNoCost
            (rules.writes self.old 2 (rows.element 2 from index) value)
            self.new result }
        ensures done { result ≡ Err NoMemory
            → IsOk (rules.writes self.old 2 (rows.element 2 from index) value) }
        ensures fit { IsFit self.old → IfOk result (λ done. StaysFit self.new done.out) }
    {
        self.memory
            .write2(from.wrapping_add(index.wrapping_mul(2)), value)?;
        self.tell(Out::Ran)
    }

    #[inline(always)]
    fn astoreb(&mut self, from: u32, index: u32, value: u32) -> Result<Done, Trap>
        ensures does { DoesAtNoCost
            (rules.writes self.old 1 (rules.wrap (from + index)) value)
            self.new result }
        ensures done { result ≡ Err NoMemory
            → IsOk (rules.writes self.old 1 (rules.wrap (from + index)) value) }
        ensures fit { IsFit self.old → IfOk result (λ done. StaysFit self.new done.out) }
    {
        self.memory.write1(from.wrapping_add(index), value)?;
        self.tell(Out::Ran)
    }

    #[inline(always)]
    fn astorebit(&mut self, from: u32, index: u32, value: u32) -> Result<Done, Trap>
        ensures does { DoesAtNoCost (rows.stores_bit self.old from index value) self.new result }
        ensures done { result ≡ Err NoMemory
            → IsOk (rows.stores_bit self.old from index value) }
        ensures fit { IsFit self.old → IfOk result (λ done. StaysFit self.new done.out) }
    {
        let at = byte_with_bit(from, index);
        let byte = self.memory.read1(at)?;
        self.memory.write1(at, with_bit(byte, index % 8, value))?;
        self.tell(Out::Ran)
    }

    #[inline(always)]
    #[tactic(auto, unfolding(crate::specs::Rows::Array::array_work))]
    pub(crate) fn array_op(
        &mut self,
        op: Array,
        args: &[u32; 8],
        to: &[Dest; 2],
        left: u64,
    ) -> Result<Done, Trap>
        ensures does { Does
            (budgeted left
            (rows.array_work op self.old (slice_index args.now) (dest_by_index to.now)))
            self.new result }
        ensures want { result ≡ Err NoMemory → ArrayMayWant op (dest_by_index to.now 0) }
        ensures done { result ≡ Err NoMemory → IsDone
            (rows.array_work op self.old (slice_index args.now) (dest_by_index to.now)) }
        ensures fit { IsFit self.old → IfOk result (λ done. StaysFit self.new done.out) }
        ensures within { IfOk result (λ done. done.cost ≤ left) }
    {
        match op {
            Array::Aload => self.aload(args[0], args[1], to[0]),
            Array::Aloads => self.aloads(args[0], args[1], to[0]),
            Array::Aloadb => self.aloadb(args[0], args[1], to[0]),
            Array::Aloadbit => self.aloadbit(args[0], args[1], to[0]),
            Array::Astore => self.astore(args[0], args[1], args[2]),
            Array::Astores => self.astores(args[0], args[1], args[2]),
            Array::Astoreb => self.astoreb(args[0], args[1], args[2]),
            Array::Astorebit => self.astorebit(args[0], args[1], args[2]),
        }
    }
}

// The address of the byte with the bit of this signed index.
fn byte_with_bit(from: u32, index: u32) -> u32
    ensures { result ≡ rows.byte_with_bit from index }
{
    if index < 0x8000_0000 {
        from.wrapping_add(index / 8)
    } else {
        from.wrapping_add(index / 8 + 0xE000_0000)
    }
}

// 2 to the power of k.
fn power(k: u32) -> u32
    requires { k < 8 }
    ensures value { result ≡ 2 ^ k }
    ensures within { result ≤ 128 }
{
    1 << k
}

// The k-th bit of a byte, the lowest first.
fn bit(byte: u32, k: u32) -> u32
    requires { k < 8 }
    ensures { result ≡ rows.bit byte k }
{
    byte / power(k) % 2
}

// A byte with its k-th bit set where the value isn't 0, else cleared.
fn with_bit(byte: u32, k: u32, value: u32) -> u32
    requires byte { byte < 256 }
    requires place { k < 8 }
    ensures { result ≡ rows.with_bit byte k value }
{
    let cleared = byte - power(k) * bit(byte, k);
    cleared + if value == 0 { 0 } else { power(k) }
}
