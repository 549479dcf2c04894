//! Opcodes and operands of code below RAMSTART, whose bytes are at hand.

ghost use Rattle.std.specs.Prelude.{ℕ, ◌≡◌, ◌≤◌, ◌<◌, ◌+◌, ◌%◌, ◌^◌, None, Ok, IfSome, IsErr};
ghost use Rattle.vm_memory.specs.Code.{IsCode};
ghost use Rattle.vm_operand.specs.Operands as spec;
ghost use Rattle.vm_operand.specs.declared.opcode.Op.{Op};

use crate::mode::Width;
use crate::opcode::Op;
use crate::operand::{Dest, Load};
use vm_memory::{MAX_SIZE, Memory};

/// The opcode of one byte or two that begins this code, and the place after it. None for a longer
/// number, and for that of no opcode.
#[inline(always)]
#[tactic(auto, unfolding(crate::specs::Instruction::opcode_number_at))]
pub fn opcode_in(memory: &Memory<'_>, code: &[u8], start: u32) -> Option<(Op, u32)>
    requires here { IsCode memory.now start code.now }
    requires limit { start + 32 ≤ MAX_SIZE }
    ensures found { IfSome result (λ x. spec.OpcodeAt memory.now start x.0 x.1) }
    ensures none { result ≡ None → (op : Op) (place : ℕ)
        → spec.OpcodeAt memory.now start op place → start + 2 < place }
    ensures above { IfSome result (λ x. start ≤ x.1) }
    ensures below { IfSome result (λ x. x.1 ≤ start + 2) }
{
    let first = memory.code1(code, start, start);
    if first < 0x80 {
        return Some((Op::of(first)?, start + 1));
    }
    if first >= 0xC0 {
        return None;
    }
    let last = memory.code1(code, start, start + 1);
    Some((Op::of((first - 0x80) * 0x100 + last)?, start + 2))
}

/// A load by the number of its mode, and the place after its bytes, which are among these.
#[inline(always)]
#[tactic(auto, unfolding(crate::specs::Mode::mode_of, crate::specs::Mode::modes, crate::specs::Instruction::load_at))]
pub fn load_in(
    memory: &Memory<'_>,
    code: &[u8],
    start: u32,
    number: u32,
    at: u32,
) -> Option<(Load, u32)>
    requires here { IsCode memory.now start code.now }
    requires limit { start + 32 ≤ MAX_SIZE }
    requires mode { number < 16 }
    requires low { start ≤ at }
    requires high { at + 4 ≤ start + 32 }
    ensures found { IfSome result (λ x. spec.load_by memory.now number at ≡ Ok x) }
    ensures none { result ≡ None → IsErr (spec.load_by memory.now number at) }
    ensures above { IfSome result (λ x. at ≤ x.1) }
    ensures below { IfSome result (λ x. x.1 ≤ at + 4) }
{
    Some(match number {
        0 => (Load::Value(0), at),
        1 => (
            Load::Value(Width::One.extend(memory.code1(code, start, at))),
            at + 1,
        ),
        2 => (
            Load::Value(Width::Two.extend(memory.code2(code, start, at))),
            at + 2,
        ),
        3 => (Load::Value(memory.code4(code, start, at)), at + 4),
        5 => (Load::At(memory.code1(code, start, at)), at + 1),
        6 => (Load::At(memory.code2(code, start, at)), at + 2),
        7 => (Load::At(memory.code4(code, start, at)), at + 4),
        8 => (Load::Pop, at),
        9 => (Load::Local(memory.code1(code, start, at)), at + 1),
        10 => (Load::Local(memory.code2(code, start, at)), at + 2),
        11 => (Load::Local(memory.code4(code, start, at)), at + 4),
        13 => (
            Load::At(in_ram(memory, memory.code1(code, start, at))),
            at + 1,
        ),
        14 => (
            Load::At(in_ram(memory, memory.code2(code, start, at))),
            at + 2,
        ),
        15 => (
            Load::At(in_ram(memory, memory.code4(code, start, at))),
            at + 4,
        ),
        4 | 12 => return None,
        _ => unreachable!(),
    })
}

/// A store by the number of its mode, and the place after its bytes, which are among these.
#[inline(always)]
#[tactic(auto, unfolding(crate::specs::Mode::mode_of, crate::specs::Mode::modes, crate::specs::Instruction::dest_at))]
pub fn dest_in(
    memory: &Memory<'_>,
    code: &[u8],
    start: u32,
    number: u32,
    at: u32,
) -> Option<(Dest, u32)>
    requires here { IsCode memory.now start code.now }
    requires limit { start + 32 ≤ MAX_SIZE }
    requires mode { number < 16 }
    requires low { start ≤ at }
    requires high { at + 4 ≤ start + 32 }
    ensures found { IfSome result (λ x. spec.dest_by memory.now number at ≡ Ok x) }
    ensures none { result ≡ None → IsErr (spec.dest_by memory.now number at) }
    ensures above { IfSome result (λ x. at ≤ x.1) }
    ensures below { IfSome result (λ x. x.1 ≤ at + 4) }
{
    Some(match number {
        0 => (Dest::Discard, at),
        5 => (Dest::At(memory.code1(code, start, at)), at + 1),
        6 => (Dest::At(memory.code2(code, start, at)), at + 2),
        7 => (Dest::At(memory.code4(code, start, at)), at + 4),
        8 => (Dest::Push, at),
        9 => (Dest::Local(memory.code1(code, start, at)), at + 1),
        10 => (Dest::Local(memory.code2(code, start, at)), at + 2),
        11 => (Dest::Local(memory.code4(code, start, at)), at + 4),
        13 => (
            Dest::At(in_ram(memory, memory.code1(code, start, at))),
            at + 1,
        ),
        14 => (
            Dest::At(in_ram(memory, memory.code2(code, start, at))),
            at + 2,
        ),
        15 => (
            Dest::At(in_ram(memory, memory.code4(code, start, at))),
            at + 4,
        ),
        1..=4 | 12 => return None,
        _ => unreachable!(),
    })
}

// The address of an offset from RAMSTART.
#[inline(always)]
fn in_ram(memory: &Memory<'_>, offset: u32) -> u32
    ensures { result ≡ (memory.now.ramstart + offset) % 2 ^ 32 }
{
    memory.ramstart().wrapping_add(offset)
}
