// The list of locals of a function: a part of the file, or a copy of memory's bytes.
ghost use Rattle.vm_stack.specs.Saved.{is_type};
ghost use Rattle.std.specs.Prelude.{◌≡◌, ◌≤◌, ◌<◌, ◌+◌, ◌==◌, ◌&&◌, ℕ, Ok, slice_index, length};
ghost use Rattle.std.specs.Prelude.{drop, take, IfErr, IfNone, IfOk, IfSome, IsOk, OnErr, OnOk};
ghost use Rattle.vm_memory.specs.declared.fault.MemFault.TheVariants.{BadRead};
ghost use Rattle.vm_flow.specs.declared.stop.FlowStop.TheVariants as stop;
ghost use Rattle.vm_flow.specs.Answer.{GivesBytes};
ghost use Rattle.vm_flow.specs.Function as functions;
ghost use Rattle.vm_stack.specs.Chain.{IsFormat};

use crate::stop::FlowStop;
use std::alloc::Global;
use vm_memory::{MAX_SIZE, Memory};

// The pairs of the function at an address, with the pair 0,0, where all of them stand below
// RAMSTART.
#[inline(always)]
pub(crate) fn front_format<'i>(memory: &Memory<'i>, function: u32) -> Option<&'i [u8]>
    ensures ok { IfSome result (λ format. functions.format_in function (function + 1)
        (drop (function + 1) memory.now.bytes) ≡ Ok format.now) }
    ensures format { IfSome result (λ format. IsFormat format.now) }
    ensures within { IfSome result (λ format. function + 1 + length format.now < 4294967296) }
    ensures none { IfNone result (functions.IsInFront memory.now function → ⊥) }
{
    let front = &memory.rom()[..memory.ramstart() as usize];
    let begin = function as usize + 1;
    if front.len() < begin {
        return None;
    }
    let bytes = &front[begin..];
    let count = format_len(bytes)?;
    Some(&bytes[..count])
}

// How many bytes the pairs have that stand here, with the pair 0,0. None where they pass the end,
// and where a type is none.
#[inline(always)]
fn format_len(bytes: &[u8]) -> Option<usize>
    ensures ok { IfSome result (λ count. (function at : ℕ)
        → functions.format_in function at bytes.now ≡ Ok (take count bytes.now)) }
    ensures format { IfSome result (λ count. IsFormat (take count bytes.now)) }
    ensures within { IfSome result (λ count. count ≤ length bytes.now) }
    ensures none { IfNone result
        ((function at : ℕ) → IsOk (functions.format_in function at bytes.now) → ⊥) }
{
    let mut read = 0;
    while bytes.len() - read >= 2 {
        let size = bytes[read];
        if is_end(size, bytes[read + 1]) {
            return Some(read + 2);
        }
        if !is_local_type(size) {
            return None;
        }
        read += 2;
    }
    None
}

// Reads the pairs of the function at an address, with the pair 0,0, into a vector.
pub(crate) fn read_format(
    alloc: Global,
    memory: &Memory<'_>,
    function: u32,
) -> Result<Vec<u8>, FlowStop>
    requires { function < MAX_SIZE }
    ensures ok { GivesBytes (functions.format_in function (function + 1)
        (drop (function + 1) memory.now.bytes)) result }
    ensures format { IfOk result (λ v. IsFormat v.items) }
    ensures within { IfOk result (λ v. function + 1 + length v.items ≤ MAX_SIZE) }
{
    let mut format = Vec::new(alloc);
    let mut at = function + 1;
    loop {
        let size = read_byte(memory, at)?;
        let count = read_byte(memory, at + 1)?;
        if is_end(size, count) {
            format.extend_from_slice(&[0, 0])?;
            return Ok(format);
        }
        if !is_local_type(size) {
            return Err(FlowStop::BadFunction(function));
        }
        format.extend_from_slice(&[size, count])?;
        at += 2;
    }
}

// Whether the pair ends a list of locals.
#[inline(always)]
fn is_end(size: u8, count: u8) -> bool
    ensures { result ≡ (size == 0 && count == 0) }
{
    size == 0 && count == 0
}

// Whether a local may have this type.
#[inline(always)]
fn is_local_type(size: u8) -> bool
    ensures { result ≡ is_type size }
{
    size == 1 || size == 2 || size == 4
}

// The byte at an address.
fn read_byte(memory: &Memory<'_>, at: u32) -> Result<u8, FlowStop>
    ensures value { IfOk result (λ x. x ≡ slice_index memory.now.bytes at) }
    ensures inside { OnOk result (at < length memory.now.bytes) }
    ensures limit { OnOk result (at < MAX_SIZE) }
    ensures exact { IfErr result (λ e. e ≡ stop.Memory (BadRead at)) }
    ensures outside { OnErr result (length memory.now.bytes ≤ at) }
{
    Ok(memory.read1(at)? as u8)
}
