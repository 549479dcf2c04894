// Arguments, in the locals of a C1 and on the stack of a C0.
ghost use Rattle.std.specs.Prelude.{◌≡◌, ◌≢◌, ◌≤◌, ◌<◌, ◌+◌, ◌*◌, length, take, drop, Err, OnOk};
ghost use Rattle.vm_flow.specs.Answer.{LeavesOrStops};
ghost use Rattle.vm_flow.specs.Call as calls;
ghost use Rattle.vm_flow.specs.declared.stop.FlowStop.TheVariants as stop;
ghost use Rattle.vm_stack.specs.Frame as frames;
ghost use Rattle.vm_stack.specs.Locals.{IsWidth};
ghost use Rattle.vm_stack.specs.Chain.{Chain, HasFrame, IsFormat};

use crate::stop::FlowStop;
use vm_stack::{MAX_STACK, Stack};

// Gives arguments to the new frame of a function of this type.
#[inline]
pub(crate) fn give(
    stack: &mut Stack,
    kind: u32,
    format: &[u8],
    args: &[u32],
) -> Result<(), FlowStop>
    requires format { IsFormat format.now }
    requires end { frames.locals_end 0 format.now ≤ MAX_STACK }
    ensures ok { LeavesOrStops (calls.arguments_given kind stack.old format.now args.now)
        stack.new result }
    ensures kept { Chain stack.old → HasFrame stack.old → OnOk result (Chain stack.new) }
    ensures there { HasFrame stack.old → OnOk result (HasFrame stack.new) }
    ensures room { result ≢ Err stop.NoMemory }
{
    if kind == 0xC1 {
        return set_locals(stack, format, args);
    }
    push_all(stack, args)?;
    Ok(stack.push(args.len() as u32)?)
}

// Pushes values, the last one first.
fn push_all(stack: &mut Stack, values: &[u32]) -> Result<(), FlowStop>
    ensures ok { LeavesOrStops (calls.all_pushed stack.old values.now) stack.new result }
    ensures kept { Chain stack.old → HasFrame stack.old → OnOk result (Chain stack.new) }
    ensures there { HasFrame stack.old → OnOk result (HasFrame stack.new) }
    ensures few { OnOk result (4 * length values.now ≤ MAX_STACK) }
    ensures room { result ≢ Err stop.NoMemory }
{
    let mut left = values.len();
    while left > 0 {
        left -= 1;
        match stack.push(values[left]) {
            Ok(()) => {}
            Err(fault) => return Err(FlowStop::Stack(fault)),
        }
    }
    Ok(())
}

// Puts arguments into the locals of the pairs, in order.
fn set_locals(stack: &mut Stack, format: &[u8], args: &[u32]) -> Result<(), FlowStop>
    requires format { IsFormat format.now }
    requires end { frames.locals_end 0 format.now ≤ MAX_STACK }
    ensures ok { LeavesOrStops (calls.locals_set stack.old 0 format.now args.now) stack.new result }
    ensures kept { Chain stack.old → OnOk result (Chain stack.new) }
    ensures there { HasFrame stack.old → OnOk result (HasFrame stack.new) }
    ensures room { result ≢ Err stop.NoMemory }
{
    if args.is_empty() {
        return Ok(());
    }
    let mut args = args;
    let mut at = 0;
    let mut read = 0;
    while format.len() - read >= 2 {
        let size = format[read];
        if size == 0 {
            return Ok(());
        }
        let count = format[read + 1];
        let begin = aligned(size, at);
        match set_pair(stack, begin, size, first(args, count)) {
            Ok(()) => {}
            Err(fault) => return Err(fault),
        }
        args = after(args, count);
        if args.is_empty() {
            return Ok(());
        }
        at = pair_end(begin, size, count);
        read += 2;
    }
    Ok(())
}

// Puts values into locals of one type.
fn set_pair(stack: &mut Stack, begin: u32, size: u8, values: &[u32]) -> Result<(), FlowStop>
    requires width { IsWidth size }
    requires begin { begin ≤ MAX_STACK }
    requires few { length values.now < 256 }
    ensures ok { LeavesOrStops (calls.pair_set stack.old begin size values.now) stack.new result }
    ensures kept { Chain stack.old → OnOk result (Chain stack.new) }
    ensures there { HasFrame stack.old → OnOk result (HasFrame stack.new) }
    ensures room { result ≢ Err stop.NoMemory }
{
    let mut at = begin;
    for value in values {
        match stack.set_local(at, u32::from(size), *value) {
            Ok(()) => {}
            Err(fault) => return Err(FlowStop::Stack(fault)),
        }
        at += u32::from(size);
    }
    Ok(())
}

// The next multiple of a local's size.
#[inline(always)]
fn aligned(size: u8, at: u32) -> u32
    requires width { IsWidth size }
    requires limit { at ≤ MAX_STACK }
    ensures { result ≡ frames.aligned size at }
{
    match size {
        1 => at,
        2 => (at + 1) / 2 * 2,
        _ => (at + 3) / 4 * 4,
    }
}

// Where the locals of a pair end.
#[inline(always)]
fn pair_end(begin: u32, size: u8, count: u8) -> u32
    requires { begin ≤ MAX_STACK }
    ensures { result ≡ begin + size * count }
{
    begin + u32::from(size) * u32::from(count)
}

// The first values, at most so many.
#[inline(always)]
fn first(values: &[u32], count: u8) -> &[u32]
    ensures value { result.now ≡ take count values.now }
    ensures within { length result.now ≤ count }
{
    if values.len() < count as usize {
        values
    } else {
        &values[..count as usize]
    }
}

// What follows so many values.
#[inline(always)]
fn after(values: &[u32], count: u8) -> &[u32]
    ensures { result.now ≡ drop count values.now }
{
    if values.len() < count as usize {
        &[]
    } else {
        &values[count as usize..]
    }
}
