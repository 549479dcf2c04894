// The locals of the current frame.
ghost use Rattle.std.specs.Prelude.{◌≡◌, ◌≤◌, ◌<◌, ◌+◌, ◌-◌, ◌^◌, length};
ghost use Rattle.std.specs.Prelude.{IfErr, IfOk, IfSome, OnErr, OnOk};
ghost use Rattle.byteorder.specs.Endian.{big_bytes};
ghost use Rattle.vm_stack.specs.Answer.{LeavesStack};
ghost use Rattle.vm_stack.specs.StackState as state;
ghost use Rattle.vm_stack.specs.Locals as locals;
ghost use Rattle.vm_stack.specs.Chain.{Chain};
ghost use Rattle.vm_stack.specs.declared.fault.StackFault.TheVariants.{BadLocal};

use crate::bytes::{held, number};
use crate::fault::StackFault;
use crate::stack::Stack;

impl Stack {
    /// The local of 1, 2 or 4 bytes at an offset from LocalsPos. BadLocal where it passes the
    /// locals' end, their padding counted as locals.
    #[inline(always)]
    pub fn local(&self, offset: u32, width: u32) -> Result<u32, StackFault>
        requires { locals.IsWidth width }
        ensures { result ≡ locals.local self.now offset width }
    {
        match self.whole_local(offset, width) {
            Some(at) => Ok(held(self.live(), at, width)),
            None => self.local_by_numbers(offset, width),
        }
    }

    // The same by FrameLen and LocalsPos, where nothing is kept of the frame.
    #[cold]
    #[inline(never)]
    fn local_by_numbers(&self, offset: u32, width: u32) -> Result<u32, StackFault>
        requires { locals.IsWidth width }
        ensures { result ≡ locals.local self.now offset width }
    {
        let at = self.local_place(offset, width)?;
        Ok(number(self.live(), at, width))
    }

    /// Sets the local of 1, 2 or 4 bytes at an offset from LocalsPos to the low bytes of a value.
    /// BadLocal where it passes the locals' end, their padding counted as locals.
    #[inline(always)]
    pub fn set_local(&mut self, offset: u32, width: u32, value: u32) -> Result<(), StackFault>
        requires { locals.IsWidth width }
        ensures ok { LeavesStack (locals.local_set self.old offset width value) self.new result }
        ensures err { OnErr result (self.new ≡ self.old) }

        ensures kept { Chain self.old → OnOk result (Chain self.new) }
        ensures size { OnOk result (length self.new.bytes ≡ length self.old.bytes) }
    {
        match self.whole_local(offset, width) {
            Some(at) => {
                self.put_held(at, width, value);
                Ok(())
            }
            None => self.set_local_by_numbers(offset, width, value),
        }
    }

    // The same by FrameLen and LocalsPos, where nothing is kept of the frame.
    #[cold]
    #[inline(never)]
    fn set_local_by_numbers(
        &mut self,
        offset: u32,
        width: u32,
        value: u32,
    ) -> Result<(), StackFault>
        requires { locals.IsWidth width }
        ensures ok { LeavesStack (locals.local_set self.old offset width value) self.new result }
        ensures err { OnErr result (self.new ≡ self.old) }
        ensures kept { Chain self.old → OnOk result (Chain self.new) }
        ensures size { OnOk result (length self.new.bytes ≡ length self.old.bytes) }
    {
        let at = self.local_place(offset, width)?;
        self.put_number(at, width, value);
        Ok(())
    }

    // Where the local at an offset stands, in a frame that stands whole.
    #[inline(always)]
    fn whole_local(&self, offset: u32, width: u32) -> Option<usize>
        requires { locals.IsWidth width }
        ensures place { IfSome result (λ at. at ≡ locals.local_at self.now offset) }
        ensures inside { IfSome result
            (λ _. offset + width ≤ state.frame_len self.now - state.locals_pos self.now) }
        ensures above { IfSome result (λ at. self.now.frame + 8 ≤ at) }
        ensures below { IfSome result (λ at. at + width ≤ length self.now.bytes) }
    {
        if self.head.span < offset as usize + width as usize {
            return None;
        }
        Some(self.head.locals + offset as usize)
    }

    // Where the local at an offset stands, by FrameLen and LocalsPos. BadLocal where it passes the
    // locals' end.
    fn local_place(&self, offset: u32, width: u32) -> Result<usize, StackFault>
        requires { locals.IsWidth width }
        ensures place { IfOk result (λ at. at ≡ locals.local_at self.now offset) }
        ensures inside { OnOk result
            (offset + width ≤ state.frame_len self.now - state.locals_pos self.now) }
        ensures limit { IfOk result (λ at. at < 2 ^ 48) }
        ensures exact { IfErr result (λ fault. fault ≡ BadLocal) }
        ensures outside { OnErr result
            (state.frame_len self.now - state.locals_pos self.now < offset + width) }
    {
        let (length, begin) = self.locals_span();
        if length < offset as usize + width as usize {
            return Err(StackFault::BadLocal);
        }
        Ok(begin + offset as usize)
    }

    // How many bytes the locals have, with the padding at their end, and where they begin.
    fn locals_span(&self) -> (usize, usize)
        ensures length { result.0 ≡ state.frame_len self.now - state.locals_pos self.now }
        ensures short { result.0 < 4294967296 }
        ensures begin { result.1 ≡ self.now.frame + state.locals_pos self.now }
        ensures limit { result.1 < 8589934592 }
    {
        let frame = self.frame() as usize;
        let length = number(self.live(), frame, 4);
        let begin = number(self.live(), frame + 4, 4);
        (
            length.saturating_sub(begin) as usize,
            frame + begin as usize,
        )
    }

    // Puts the low bytes of a number at a place.
    #[inline(always)]
    fn put_number(&mut self, at: usize, width: u32, value: u32)
        requires { locals.IsWidth width }
        ensures { self.new ≡ record self.old {
          bytes = state.replaced_within self.old.bytes at (big_bytes width value);
        } }
    {
        match width {
            1 => self.replace(at, &[(value & 0xff) as u8]),
            2 => self.replace(at, &((value & 0xffff) as u16).to_be_bytes()),
            _ => self.replace(at, &value.to_be_bytes()),
        }
    }

    // The same at a place that a local has in a frame that stands whole.
    #[inline(always)]
    fn put_held(&mut self, at: usize, width: u32, value: u32)
        requires width { locals.IsWidth width }
        requires above { self.old.frame + 8 ≤ at }
        requires below { at + width ≤ length self.old.bytes }
        ensures { self.new ≡ record self.old {
          bytes = state.replaced_within self.old.bytes at (big_bytes width value);
        } }
    {
        match width {
            1 => self.replace_held(at, &[(value & 0xff) as u8]),
            2 => self.replace_held(at, &((value & 0xffff) as u16).to_be_bytes()),
            _ => self.replace_held(at, &value.to_be_bytes()),
        }
    }
}
