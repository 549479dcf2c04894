// Calls of functions.
ghost use Rattle.std.specs.Prelude.{◌≡◌, ◌≢◌, ◌⊎◌, ◌<◌, ◌+◌, Ok, Err, OnOk};
ghost use Rattle.std.specs.Prelude.{[], ◌∷◌, ◌++◌, length, reverse};
ghost use Rattle.vm_memory.specs.Access.{read};
ghost use Rattle.vm_flow.specs.Answer.{GivesOrStops, GivesWithRoom, and_then, from_stack};
ghost use Rattle.vm_flow.specs.Call as calls;
ghost use Rattle.vm_flow.specs.Function.{IsInFront};
ghost use Rattle.vm_flow.specs.declared.stop.FlowStop.TheVariants as stop;
ghost use Rattle.vm_stack.specs.Frame.{entered, fresh_frame, frame_left};
ghost use Rattle.vm_stack.specs.Chain.{Chain, HasFrame, IsFormat, IsReady};

use crate::arguments::give;
use crate::format::{front_format, read_format};
use crate::stop::FlowStop;
use std::alloc::Global;
use vm_memory::Memory;
use vm_stack::Stack;

/// Calls the function at an address with these arguments, the first one first, over the stub on
/// top, and gives the address of its first instruction. After a stop the stack may have got a frame
/// or values.
#[inline(always)]
pub fn call(
    alloc: Global,
    memory: &Memory<'_>,
    stack: &mut Stack,
    at: u32,
    args: &[u32],
) -> Result<u32, FlowStop>
    ensures ok { GivesWithRoom (calls.function_called memory.now stack.old at args.now)
        stack.new result }
    ensures locals { OnOk result
        (calls.GetsLocals memory.now stack.old at args.now stack.new) }
    ensures values { OnOk result
        (calls.GetsValues memory.now stack.old at args.now stack.new) }
    // no memory of the host is wanted where the list of locals stands below RAMSTART
    ensures front { IsInFront memory.now at → result ≢ Err stop.NoMemory }

    ensures kept { Chain stack.old → IsReady stack.old → OnOk result (Chain stack.new) }
    ensures there { OnOk result (HasFrame stack.new) }
{
    let kind = memory.read1(at)?;
    if kind != 0xC0 && kind != 0xC1 {
        return Err(FlowStop::BadFunction(at));
    }
    match front_format(memory, at) {
        Some(format) => begin(stack, at, kind, format, args),
        None => begin_by_copy(alloc, memory, stack, at, kind, args),
    }
}

// Begins the function of this type with a copy of its list of locals.
#[cold]
#[inline(never)]
fn begin_by_copy(
    alloc: Global,
    memory: &Memory<'_>,
    stack: &mut Stack,
    at: u32,
    kind: u32,
    args: &[u32],
) -> Result<u32, FlowStop>
    requires reads { read 1 memory.now at ≡ Ok kind }
    requires kind { (kind ≡ 0xC0) ⊎ (kind ≡ 0xC1) }
    requires place { at < 16777216 }
    ensures ok { GivesWithRoom (calls.function_called memory.now stack.old at args.now)
        stack.new result }
    ensures locals { OnOk result
        (calls.GetsLocals memory.now stack.old at args.now stack.new) }
    ensures values { OnOk result
        (calls.GetsValues memory.now stack.old at args.now stack.new) }

    ensures kept { Chain stack.old → IsReady stack.old → OnOk result (Chain stack.new) }
    ensures there { OnOk result (HasFrame stack.new) }
{
    let format = read_format(alloc, memory, at)?;
    begin(stack, at, kind, &format, args)
}

// Begins the function of this type: a frame is made for its list of locals, and the arguments are
// given to it; where all locals of a C1 have four bytes both in one.
#[inline(always)]
fn begin(
    stack: &mut Stack,
    at: u32,
    kind: u32,
    format: &[u8],
    args: &[u32],
) -> Result<u32, FlowStop>
    requires format { IsFormat format.now }
    requires within { at + 1 + length format.now < 4294967296 }
    ensures ok { GivesOrStops
        (and_then (from_stack (entered stack.old format.now)) (λ t.
        and_then (calls.arguments_given kind t format.now args.now)
        (λ u. Ok (u, at + 1 + length format.now))))
        stack.new result }
    ensures locals { kind ≡ 0xC1 → OnOk result (stack.new ≡ calls.with_frame stack.old
        (calls.frame_with format.now (calls.locals_of 0 format.now args.now))) }
    ensures values { kind ≡ 0xC0 → OnOk result (stack.new ≡ calls.with_values
        (calls.with_frame stack.old (fresh_frame format.now))
        (reverse args.now ++ length args.now ∷ [])) }

    ensures kept { Chain stack.old → IsReady stack.old → OnOk result (Chain stack.new) }
    ensures there { OnOk result (HasFrame stack.new) }
    ensures room { result ≢ Err stop.NoMemory }
{
    if kind != 0xC1 {
        return begin_in_steps(stack, at, kind, format, args);
    }
    if stack.enter_plain(format, args) {
        return Ok(at + 1 + format.len() as u32);
    }
    begin_in_steps(stack, at, kind, format, args)
}

// The same, a frame first and then the arguments.
#[inline(never)]
fn begin_in_steps(
    stack: &mut Stack,
    at: u32,
    kind: u32,
    format: &[u8],
    args: &[u32],
) -> Result<u32, FlowStop>
    requires format { IsFormat format.now }
    requires within { at + 1 + length format.now < 4294967296 }
    ensures ok { GivesOrStops
        (and_then (from_stack (entered stack.old format.now)) (λ t.
        and_then (calls.arguments_given kind t format.now args.now)
        (λ u. Ok (u, at + 1 + length format.now))))
        stack.new result }
    ensures locals { kind ≡ 0xC1 → OnOk result (stack.new ≡ calls.with_frame stack.old
        (calls.frame_with format.now (calls.locals_of 0 format.now args.now))) }
    ensures values { kind ≡ 0xC0 → OnOk result (stack.new ≡ calls.with_values
        (calls.with_frame stack.old (fresh_frame format.now))
        (reverse args.now ++ length args.now ∷ [])) }

    ensures kept { Chain stack.old → IsReady stack.old → OnOk result (Chain stack.new) }
    ensures there { OnOk result (HasFrame stack.new) }
    ensures room { result ≢ Err stop.NoMemory }
{
    stack.enter(format)?;
    give(stack, kind, format, args)?;
    Ok(at + 1 + format.len() as u32)
}

/// Calls the function at an address in place of the current frame, over the stub below that frame.
/// The rest is as for `call`.
pub fn tail_call(
    alloc: Global,
    memory: &Memory<'_>,
    stack: &mut Stack,
    at: u32,
    args: &[u32],
) -> Result<u32, FlowStop>
    ensures ok { GivesWithRoom (calls.function_called memory.now (frame_left stack.old) at args.now)
        stack.new result }
    ensures locals { OnOk result
        (calls.GetsLocals memory.now (frame_left stack.old) at args.now stack.new) }
    ensures values { OnOk result
        (calls.GetsValues memory.now (frame_left stack.old) at args.now stack.new) }
    // no memory of the host is wanted where the list of locals stands below RAMSTART
    ensures front { IsInFront memory.now at → result ≢ Err stop.NoMemory }

    ensures kept { Chain stack.old → OnOk result (Chain stack.new) }
    ensures there { OnOk result (HasFrame stack.new) }
{
    stack.leave();
    call(alloc, memory, stack, at, args)
}
