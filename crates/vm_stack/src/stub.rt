// Call stubs, and the tokens that name where one ends.
ghost use Rattle.std.specs.Prelude.{◌≡◌, ◌≤◌, ◌+◌, ◌++◌, length, take, Ok, Err};
ghost use Rattle.std.specs.Prelude.{OnErr, OnOk, IfNone, IfSome};
ghost use Rattle.vm_stack.specs.Answer.{GivesFromStack, LeavesStack};
ghost use Rattle.vm_stack.specs.Frame.{frame_left};
ghost use Rattle.vm_stack.specs.Stub as stubs;
ghost use Rattle.vm_stack.specs.declared.fault.StackFault.TheVariants.{Underflow};
ghost use Rattle.vm_stack.specs.Values.{without_top};
ghost use Rattle.vm_stack.specs.Token as tokens;
ghost use Rattle.vm_stack.specs.Chain.{Chain, HasFrame, IsReady, EndsInOwnStub};

use crate::bytes::{held, number};
use crate::fault::StackFault;
use crate::stack::Stack;
use byteorder::{BigEndian, ByteOrder};

/// Where a result goes and where execution goes on: DestType, DestAddr, PC and FramePtr.
#[derive(Clone, Copy, Debug, PartialEq, Eq)]
pub struct Stub {
    pub kind: u32,
    pub at: u32,
    pub pc: u32,
    pub frame: u32,
}

impl Stack {
    /// Pushes the four words of a stub, FramePtr on top. Overflow where fewer than 16 bytes are
    /// free.
    #[inline(always)]
    pub fn push_stub(&mut self, stub: Stub) -> Result<(), StackFault>
        ensures ok { LeavesStack (stubs.stub_pushed self.old stub) self.new result }
        ensures err { OnErr result (self.new ≡ self.old) }

        ensures kept { Chain self.old → HasFrame self.old → OnOk result (Chain self.new) }
        ensures there { OnOk result (HasFrame self.new) }
        // after a stub for the current frame a new one may be entered
        ensures ready { Chain self.old → HasFrame self.old → stub.frame ≡ self.old.frame
            → OnOk result (IsReady self.new) }
    {
        if !self.has_room(16) {
            return Err(StackFault::Overflow);
        }
        self.add_stub(stub);
        Ok(())
    }

    // Puts a stub on top.
    #[inline(always)]
    fn add_stub(&mut self, stub: Stub)
        requires { length self.old.bytes + 16 ≤ self.old.limit }
        ensures { self.new ≡ record self.old { bytes = self.old.bytes ++ stubs.stub_bytes stub } }
    {
        let mut bytes = [0; 16];
        BigEndian::write_u32_into(&[stub.kind, stub.at, stub.pc, stub.frame], &mut bytes);
        self.add(&bytes);
    }

    /// Pops the four words of the stub on top, and makes its frame the current one. Underflow where
    /// the current frame holds fewer than four values.
    pub fn take_stub(&mut self) -> Result<Stub, StackFault>
        ensures ok { GivesFromStack (stubs.stub_taken self.old) self.new result }
        ensures err { OnErr result (self.new ≡ self.old) }

        ensures kept { Chain self.old → EndsInOwnStub self.old → OnOk result (Chain self.new) }
        ensures there { Chain self.old → OnOk result (HasFrame self.new) }
    {
        if self.value_bytes() < 16 {
            return Err(StackFault::Underflow);
        }
        let bytes = self.live();
        let at = bytes.len() - 16;
        let stub = stub_at(bytes, at);
        self.drop_stub(stub.frame);
        Ok(stub)
    }

    /// Drops the current frame, and takes the stub that is on top then. None where the frame of that
    /// stub holds fewer than four values, and then nothing changes.
    #[inline(always)]
    pub fn leave_and_take_stub(&mut self) -> Option<Stub>
        ensures some { IfSome result (λ stub.
            stubs.stub_taken (frame_left self.old) ≡ Ok (self.new, stub)) }
        ensures none { IfNone result (stubs.stub_taken (frame_left self.old) ≡ Err Underflow) }
        ensures same { IfNone result (self.new ≡ self.old) }

        ensures kept { Chain self.old → IfSome result (λ _. Chain self.new) }
        ensures there { Chain self.old → IfSome result (λ _. HasFrame self.new) }
    {
        let bytes = self.live_below();
        if bytes.len() < 16 {
            return None;
        }
        let at = bytes.len() - 16;
        let stub = stub_at(bytes, at);
        let frame = stub.frame as usize;
        if at < frame + number(bytes, frame, 4) as usize {
            return None;
        }
        self.drop_to(at, stub.frame);
        Some(stub)
    }

    // The bytes below the current frame.
    #[inline(always)]
    fn live_below(&self) -> &[u8]
        ensures bytes { result.now ≡ take self.now.frame self.now.bytes }
        ensures within { length result.now ≤ length self.now.bytes }
    {
        let bytes = self.live();
        let end = self.frame() as usize;
        if bytes.len() < end {
            return bytes;
        }
        &bytes[..end]
    }

    // Drops the stub on top, for this frame.
    fn drop_stub(&mut self, frame: u32)
        requires { 16 ≤ length self.old.bytes }
        ensures { self.new ≡ record (without_top self.old 16) { frame = frame } }
    {
        self.shrink(16);
        // it is the current one already where the frame above was left
        if self.frame() != frame {
            self.set_frame(frame);
        }
    }

    /// Whether a stub for the current frame ends at this place, among the frame's values.
    pub fn ends_stub(&self, token: u32) -> bool
        ensures { result ≡ tokens.ends_stub self.now token }
    {
        let bytes = self.live();
        let frame = self.frame();
        let start = frame as usize + number(bytes, frame as usize, 4) as usize;
        start + 16 <= token as usize
            && token as usize <= bytes.len()
            && token % 4 == 0
            && number(bytes, token as usize - 4, 4) == frame
    }
}

// The stub at a place.
fn stub_at(bytes: &[u8], at: usize) -> Stub
    requires { at + 16 ≤ length bytes.now }
    ensures { result ≡ stubs.stub_at bytes.now at }
{
    Stub {
        kind: held(bytes, at, 4),
        at: held(bytes, at + 4, 4),
        pc: held(bytes, at + 8, 4),
        frame: held(bytes, at + 12, 4),
    }
}
