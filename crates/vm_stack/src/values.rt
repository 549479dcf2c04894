// The values of the current frame: push, pop and the stack opcodes.
ghost use Rattle.std.specs.Prelude.{◌≡◌, ◌≤◌, ◌+◌, ◌-◌, length, OnErr, OnOk};
ghost use Rattle.vm_stack.specs.Answer.{GivesFromStack, LeavesStack};
ghost use Rattle.vm_stack.specs.StackState as state;
ghost use Rattle.vm_stack.specs.Values as values;
ghost use Rattle.vm_stack.specs.Chain.{Chain, HasFrame};

use crate::bytes::{held, number};
use crate::fault::StackFault;
use crate::stack::{MAX_STACK, Stack};

impl Stack {
    /// Pushes a value of four bytes. Overflow where fewer than four bytes are free.
    #[inline(always)]
    pub fn push(&mut self, value: u32) -> Result<(), StackFault>
        ensures ok { LeavesStack (values.pushed self.old value) self.new result }
        ensures err { OnErr result (self.new ≡ self.old) }

        ensures kept { Chain self.old → HasFrame self.old → OnOk result (Chain self.new) }
        ensures there { OnOk result (HasFrame self.new) }
        ensures size { OnOk result (length self.new.bytes ≡ length self.old.bytes + 4) }
        ensures within { OnOk result (length self.new.bytes ≤ MAX_STACK) }
    {
        if !self.has_room(4) {
            return Err(StackFault::Overflow);
        }
        self.add(&value.to_be_bytes());
        Ok(())
    }

    /// Pops the value on top. Underflow where the current frame holds none.
    #[inline(always)]
    pub fn pop(&mut self) -> Result<u32, StackFault>
        ensures ok { GivesFromStack (values.popped self.old) self.new result }
        ensures err { OnErr result (self.new ≡ self.old) }

        ensures kept { Chain self.old → OnOk result (Chain self.new) }
        ensures there { Chain self.old → OnOk result (HasFrame self.new) }
    {
        if self.has_word() {
            return Ok(self.take_word());
        }
        self.pop_by_number()
    }

    // The same by FrameLen, where nothing is kept of the frame, or it holds none.
    #[cold]
    #[inline(never)]
    fn pop_by_number(&mut self) -> Result<u32, StackFault>
        ensures ok { GivesFromStack (values.popped self.old) self.new result }
        ensures err { OnErr result (self.new ≡ self.old) }
        ensures kept { Chain self.old → OnOk result (Chain self.new) }
        ensures there { Chain self.old → OnOk result (HasFrame self.new) }
    {
        if self.value_bytes() < 4 {
            return Err(StackFault::Underflow);
        }
        Ok(self.take_word())
    }

    // Takes the value on top, which is there.
    #[inline(always)]
    fn take_word(&mut self) -> u32
        requires { 4 ≤ state.value_bytes self.old }
        ensures value { result ≡ state.number 4 self.old.bytes (length self.old.bytes - 4) }
        ensures rest { self.new ≡ values.without_top self.old 4 }
        ensures kept { Chain self.old → Chain self.new }
        ensures there { Chain self.old → HasFrame self.new }
    {
        let bytes = self.live();
        let value = held(bytes, bytes.len() - 4, 4);
        self.shrink(4);
        value
    }

    /// How many values the current frame holds (`stkcount`).
    pub fn count(&self) -> u32
        ensures { result ≡ values.value_count self.now }
    {
        (self.value_bytes() / 4) as u32
    }

    /// The value at a depth, 0 the top (`stkpeek`). Underflow where the frame holds no more values
    /// than the depth.
    pub fn peek(&self, depth: u32) -> Result<u32, StackFault>
        ensures { result ≡ values.peeked self.now depth }
    {
        let needed = 4 * (depth as usize + 1);
        if self.value_bytes() < needed {
            return Err(StackFault::Underflow);
        }
        let bytes = self.live();
        Ok(number(bytes, bytes.len() - needed, 4))
    }

    /// Turns the top `count` values by a signed number of places towards the top (`stkroll`).
    /// Underflow where the frame holds fewer.
    pub fn roll(&mut self, count: u32, by: u32) -> Result<(), StackFault>
        ensures ok { LeavesStack (values.rolled self.old count by) self.new result }
        ensures err { OnErr result (self.new ≡ self.old) }

        ensures kept { Chain self.old → OnOk result (Chain self.new) }
        ensures size { OnOk result (length self.new.bytes ≡ length self.old.bytes) }
    {
        let needed = 4 * count as usize;
        if self.value_bytes() < needed {
            return Err(StackFault::Underflow);
        }
        let by = 4 * turn(count, by) as usize;
        self.rotate_top(needed, by);
        Ok(())
    }
}

// How far a signed number turns values towards the top.
fn turn(count: u32, by: u32) -> u32
    ensures value { result ≡ values.turn count by }
    ensures within { result ≤ count }
{
    if count == 0 {
        return 0;
    }
    if by < 0x8000_0000 {
        return by % count;
    }
    let back = ((0x1_0000_0000 - u64::from(by)) % u64::from(count)) as u32;
    (count - back) % count
}
