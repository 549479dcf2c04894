// Call frames: a new one, back to the one below, and the stack cut or replaced.
ghost use Rattle.std.specs.Prelude.{◌≡◌, ◌≤◌, ◌<◌, ◌+◌, ◌*◌, ◌^◌, ◌++◌, length, take, true, OnErr};
ghost use Rattle.std.specs.Prelude.{OnOk};
ghost use Rattle.vm_stack.specs.Answer.{LeavesStack};
ghost use Rattle.vm_stack.specs.Frame as frames;
ghost use Rattle.vm_stack.specs.Token as tokens;
ghost use Rattle.vm_stack.specs.Chain.{Chain, HasFrame, IsReady, IsFormat, EndsInOwnStub};
ghost use Rattle.vm_stack.specs.Saved.{LinkedFrames};

use crate::bytes::number;
use crate::fault::StackFault;
use crate::head::Head;
use crate::stack::{MAX_STACK, Stack};

impl Stack {
    /// Makes a new frame for the pairs of type and count that `format` holds with the pair 0,0 at
    /// its end. The locals are zero. Overflow where the frame doesn't fit.
    pub fn enter(&mut self, format: &[u8]) -> Result<(), StackFault>
        ensures ok { LeavesStack (frames.entered self.old format.now) self.new result }
        ensures err { OnErr result (self.new ≡ self.old) }

        ensures kept { Chain self.old → IsReady self.old → IsFormat format.now
            → OnOk result (Chain self.new) }
        ensures there { OnOk result (HasFrame self.new) }
        ensures size { OnOk result (frames.frame_len_of format.now ≤ MAX_STACK) }
    {
        if format.len() > self.size() {
            return Err(StackFault::Overflow);
        }
        let head = aligned(4, 8 + format.len() as u64);
        let locals = aligned(4, locals_end(0, format));
        if !self.has_room(head + locals) {
            return Err(StackFault::Overflow);
        }
        self.add_frame(format, head as usize, locals as usize);
        Ok(())
    }

    // Puts a new frame on top.
    #[inline(always)]
    fn add_frame(&mut self, format: &[u8], head: usize, locals: usize)
        requires head { head ≡ frames.locals_pos_of format.now }
        requires locals { locals ≡ frames.locals_len format.now }
        requires size { length self.old.bytes + frames.frame_len_of format.now ≤ MAX_STACK }
        requires room { length self.old.bytes + frames.frame_len_of format.now ≤ self.old.limit }
        ensures { self.new ≡ record self.old {
          bytes = self.old.bytes ++ frames.fresh_frame format.now;
          frame = length self.old.bytes;
        } }
    {
        let start = self.length();
        self.add_frame_bytes(format, head, locals);
        let begin = start as usize + head;
        self.set_whole_frame(
            start,
            Head {
                locals: begin,
                span: locals,
                values: begin + locals,
            },
        );
    }

    // Puts the bytes of a new frame on top.
    #[inline(always)]
    fn add_frame_bytes(&mut self, format: &[u8], head: usize, locals: usize)
        requires head { head ≡ frames.locals_pos_of format.now }
        requires locals { locals ≡ frames.locals_len format.now }
        requires size { frames.frame_len_of format.now ≤ MAX_STACK }
        requires room { length self.old.bytes + frames.frame_len_of format.now ≤ self.old.limit }
        ensures { self.new ≡ record self.old {
          bytes = self.old.bytes ++ frames.fresh_frame format.now;
        } }
    {
        self.add(&((head + locals) as u32).to_be_bytes());
        self.add(&(head as u32).to_be_bytes());
        self.add(format);
        self.add_zeros(head - (8 + format.len()));
        self.add_zeros(locals);
    }

    /// Drops the current frame. The current one is then that which the FramePtr on top names.
    pub fn leave(&mut self)
        ensures ok { self.new ≡ frames.frame_left self.old }

        ensures kept { Chain self.old → Chain self.new }
        // a frame stands on a stub for the one below it, so another may be entered in its place
        ensures ready { Chain self.old → IsReady self.new }
    {
        let start = self.frame();
        self.shorten(start as usize);
    }

    /// Drops all from a place on. The current frame is then that which the FramePtr on top names.
    /// Underflow where the place is past the top or no multiple of four.
    pub fn cut(&mut self, to: u32) -> Result<(), StackFault>
        ensures ok { LeavesStack (frames.cut_to self.old to) self.new result }
        ensures err { OnErr result (self.new ≡ self.old) }

        // a chain stays one where a stub ends at the place, and whatever stands is one where the
        // bytes that are left are frames with a stub on top
        ensures kept { Chain self.old → tokens.ends_stub self.old to ≡ true
            → OnOk result (Chain self.new) }
        ensures linked { LinkedFrames (take to self.old.bytes) → OnOk result (Chain self.new) }
        ensures own { OnOk result (EndsInOwnStub self.new) }
        ensures there { tokens.ends_stub self.old to ≡ true → OnOk result (HasFrame self.new) }
    {
        if to > self.length() || to % 4 != 0 {
            return Err(StackFault::Underflow);
        }
        self.shorten(to as usize);
        Ok(())
    }

    // Keeps so many bytes, and goes to the frame that the FramePtr on top names.
    fn shorten(&mut self, to: usize)
        ensures { self.new ≡ frames.in_named_frame self.old (take to self.old.bytes) }
    {
        self.truncate(to);
        self.find_frame();
    }

    // Goes to the frame that the FramePtr on top names.
    pub(crate) fn find_frame(&mut self)
        ensures { self.new ≡ frames.in_named_frame self.old self.old.bytes }
    {
        let bytes = self.live();
        let frame = number(bytes, bytes.len().saturating_sub(4), 4);
        self.set_frame(frame);
    }
}

// The next multiple.
pub(crate) fn aligned(size: u64, at: u64) -> u64
    requires low { 1 ≤ size }
    requires high { size < 256 }
    requires limit { at < 2 ^ 48 }
    ensures value { result ≡ frames.aligned size at }
    ensures within { result < at + size }
{
    // locals have four bytes nearly always: a division by a number that is known is a shift
    if size == 4 {
        return (at + 3) / 4 * 4;
    }
    (at + (size - 1)) / size * size
}

// Where the locals of a pair end that begin after a place.
fn pair_end(at: u64, size: u8, count: u8) -> u64
    requires low { 1 ≤ size }
    requires limit { at < 2 ^ 48 }
    ensures value { result ≡ frames.aligned size at + size * count }
    ensures within { result ≤ at + 131072 }
{
    aligned(u64::from(size), at) + u64::from(size) * u64::from(count)
}

// Where the locals of the pairs end that begin after a place.
pub(crate) fn locals_end(at: u64, format: &[u8]) -> u64
    requires { at + 65536 * length format.now ≤ 2 ^ 47 }
    ensures value { result ≡ frames.locals_end at format.now }
    ensures within { result ≤ at + 65536 * length format.now }
{
    let mut end = at;
    let mut read = 0;
    while format.len() - read >= 2 {
        if format[read] == 0 {
            return end;
        }
        end = pair_end(end, format[read], format[read + 1]);
        read += 2;
    }
    end
}
