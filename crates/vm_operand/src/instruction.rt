//! The instruction at an address.

ghost use Rattle.std.specs.Prelude.{◌≡◌, ◌≤◌, ◌<◌, ◌+◌, ◌/◌, ◌^◌, []};
ghost use Rattle.std.specs.Prelude.{◌∷◌, length, take, Ok, Err, IfOk, IfErr};
ghost use Rattle.vm_operand.specs.Instruction as spec;
ghost use Rattle.vm_operand.specs.Opcode.{op_of, loads_in, stores_in};

use crate::OpFault;
use crate::mode::Mode;
use crate::opcode::Op;
use crate::operand::{Dest, Dests, Kind, Load, Loads};
use vm_memory::{MAX_SIZE, Memory};

/// An instruction: its opcode's number, its operands, and the next address.
#[derive(Clone, Copy, Debug, PartialEq, Eq)]
pub struct Instr {
    pub op: u32,
    pub loads: Loads,
    pub stores: Dests,
    pub next: u32,
}

/// The opcode's number and the place after it.
#[inline(always)]
#[tactic(auto, unfolding(crate::specs::Instruction::opcode_number_at))]
pub(crate) fn number_at(memory: &Memory<'_>, at: u32) -> Result<(u32, u32), OpFault>
    ensures value { result ≡ spec.opcode_number_at memory.now at }
    ensures within { IfOk result (λ x. x.1 ≤ MAX_SIZE) }
{
    let first = memory.read1(at)?;
    if first < 0x80 {
        Ok((first, at + 1))
    } else if first < 0xC0 {
        let last = memory.read1(at + 1)?;
        Ok(((first - 0x80) * 0x100 + last, at + 2))
    } else {
        let second = memory.read1(at + 1)?;
        let last = memory.read2(at + 2)?;
        Ok((
            (first - 0xC0) * 0x100_0000 + second * 0x1_0000 + last,
            at + 4,
        ))
    }
}

/// The opcode of a number, or what is wrong with it.
fn known(number: u32) -> Result<Op, OpFault>
    ensures { result ≡ spec.known number (op_of number) }
{
    match Op::of(number) {
        Some(op) => Ok(op),
        None if 0x190 <= number && number < 0x300 => Err(OpFault::Unsupported(number)),
        None => Err(OpFault::BadOpcode(number)),
    }
}

/// The modes of the operands, and Zero up to the eighth.
fn modes_at(memory: &Memory<'_>, at: u32, kinds: &[Kind]) -> Result<[Mode; 8], OpFault>
    requires few { length kinds.now ≤ 8 }
    requires limit { at ≤ MAX_SIZE }
    ensures ok { IfOk result (λ modes.
        spec.modes_at memory.now at kinds.now ≡ Ok (take (length kinds.now) modes)) }
    ensures exact { IfErr result (λ fault. spec.modes_at memory.now at kinds.now ≡ Err fault) }
{
    let mut modes = [Mode::Zero; 8];
    let mut count = 0;
    let mut place = at;
    while count + 1 < kinds.len() {
        let byte = memory.read1(place)?;
        modes[count] = Mode::for_kind(kinds[count], byte % 16)?;
        modes[count + 1] = Mode::for_kind(kinds[count + 1], byte / 16)?;
        place += 1;
        count += 2;
    }
    if count < kinds.len() {
        let byte = memory.read1(place)?;
        modes[count] = Mode::for_kind(kinds[count], byte % 16)?;
    }
    Ok(modes)
}

/// A load by its mode, and the place after its bytes.
#[tactic(auto, unfolding(crate::specs::Instruction::load_at))]
fn load_at(memory: &Memory<'_>, mode: Mode, at: u32) -> Result<(Load, u32), OpFault>
    ensures value { result ≡ spec.load_at memory.now mode at }
    ensures within { at ≤ MAX_SIZE + 4 → IfOk result (λ x. x.1 ≤ MAX_SIZE + 4) }
{
    match mode {
        Mode::Zero => Ok((Load::Value(0), at)),
        Mode::Constant(width) => {
            let value = width.read(memory, at)?;
            Ok((Load::Value(width.extend(value)), at + width.size()))
        }
        Mode::Address(width) => {
            let place = width.read(memory, at)?;
            Ok((Load::At(place), at + width.size()))
        }
        Mode::Stack => Ok((Load::Pop, at)),
        Mode::Local(width) => {
            let offset = width.read(memory, at)?;
            Ok((Load::Local(offset), at + width.size()))
        }
        Mode::Ram(width) => {
            let offset = width.read(memory, at)?;
            let place = memory.ramstart().wrapping_add(offset);
            Ok((Load::At(place), at + width.size()))
        }
    }
}

/// A store by its mode, and the place after its bytes.
#[tactic(auto, unfolding(crate::specs::Instruction::dest_at))]
fn dest_at(memory: &Memory<'_>, mode: Mode, at: u32) -> Result<(Dest, u32), OpFault>
    ensures value { result ≡ spec.dest_at memory.now mode at }
    ensures within { at ≤ MAX_SIZE + 4 → IfOk result (λ x. x.1 ≤ MAX_SIZE + 4) }
{
    match mode {
        Mode::Zero | Mode::Constant(_) => Ok((Dest::Discard, at)),
        Mode::Address(width) => {
            let place = width.read(memory, at)?;
            Ok((Dest::At(place), at + width.size()))
        }
        Mode::Stack => Ok((Dest::Push, at)),
        Mode::Local(width) => {
            let offset = width.read(memory, at)?;
            Ok((Dest::Local(offset), at + width.size()))
        }
        Mode::Ram(width) => {
            let offset = width.read(memory, at)?;
            let place = memory.ramstart().wrapping_add(offset);
            Ok((Dest::At(place), at + width.size()))
        }
    }
}

impl Instr {
    fn bare(op: u32, next: u32) -> Instr
        ensures { result ≡ spec.bare op next }
    {
        Instr {
            op,
            loads: Loads {
                count: 0,
                items: [Load::Value(0); 8],
            },
            stores: Dests {
                count: 0,
                items: [Dest::Discard; 2],
            },
            next,
        }
    }

    /// Takes one more operand, whose bytes begin where the instruction ends so far.
    #[tactic(auto, unfolding(crate::specs::Instruction::operand))]
    fn take(&mut self, memory: &Memory<'_>, kind: Kind, mode: Mode) -> Result<(), OpFault>
        requires loads { self.old.loads.count + loads_in (kind ∷ []) ≤ 8 }
        requires stores { self.old.stores.count + stores_in (kind ∷ []) ≤ 2 }
        ensures ok { IfOk result (λ done.
            spec.operand memory.now kind mode self.old ≡ Ok self.new) }
        ensures exact { IfErr result (λ fault.
            spec.operand memory.now kind mode self.old ≡ Err fault) }
        ensures loads { IfOk result (λ done.
            self.new.loads.count ≡ self.old.loads.count + loads_in (kind ∷ [])) }
        ensures stores { IfOk result (λ done.
            self.new.stores.count ≡ self.old.stores.count + stores_in (kind ∷ [])) }
    {
        match kind {
            Kind::Load => {
                let (load, next) = load_at(memory, mode, self.next)?;
                self.loads.items[self.loads.count as usize] = load;
                self.loads.count += 1;
                self.next = next;
            }
            Kind::Store => {
                let (dest, next) = dest_at(memory, mode, self.next)?;
                self.stores.items[self.stores.count as usize] = dest;
                self.stores.count += 1;
                self.next = next;
            }
        }
        Ok(())
    }

    /// Takes the operands in their order, each with its mode.
    fn take_all(
        &mut self,
        memory: &Memory<'_>,
        kinds: &[Kind],
        modes: &[Mode],
    ) -> Result<(), OpFault>
        requires loads { self.old.loads.count + loads_in kinds.now ≤ 8 }
        requires stores { self.old.stores.count + stores_in kinds.now ≤ 2 }
        requires same { length kinds.now ≡ length modes.now }
        ensures ok { IfOk result (λ done.
            spec.operands memory.now kinds.now modes.now self.old ≡ Ok self.new) }
        ensures exact { IfErr result (λ fault.
            spec.operands memory.now kinds.now modes.now self.old ≡ Err fault) }
        ensures few { IfOk result (λ done. self.new.loads.count ≤ 8) }
    {
        for index in 0..kinds.len() {
            self.take(memory, kinds[index], modes[index])?;
        }
        Ok(())
    }
}

/// The instruction at the address, or the first fault in the order of bytes: the opcode, then its
/// modes, two to a byte, each looked at as its byte is read, and then the operands' bytes.
#[tactic(auto, unfolding(crate::specs::Instruction::instruction_at))]
pub fn decode(memory: &Memory<'_>, at: u32) -> Result<Instr, OpFault>
    ensures value { result ≡ spec.instruction_at memory.now at }
    ensures few { IfOk result (λ instr. instr.loads.count ≤ 8) }
{
    let (number, place) = number_at(memory, at)?;
    let kinds = known(number)?.kinds();
    let modes = modes_at(memory, place, kinds)?;
    let mut instr = Instr::bare(number, place + (kinds.len() as u32 + 1) / 2);
    instr.take_all(memory, kinds, &modes[..kinds.len()])?;
    Ok(instr)
}
