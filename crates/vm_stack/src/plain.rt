//! Frames of functions whose locals all have four bytes, in one piece.
ghost use Rattle.std.specs.Prelude.{◌≡◌, ◌≤◌, ◌<◌, ◌+◌, ◌*◌, ◌++◌, length, get_or, slice_index};
ghost use Rattle.std.specs.Prelude.{true, false, IfNone, IfSome};
ghost use Rattle.vm_stack.specs.StackState.{words};
ghost use Rattle.vm_stack.specs.Frame as frames;
ghost use Rattle.vm_stack.specs.Chain.{Chain, HasFrame, IsReady};

use crate::head::Head;
use crate::stack::{MAX_STACK, Stack};

impl Stack {
    /// Makes a new frame for the list `0 0`, or `4 N 0 0`, whose N locals get the values in order:
    /// 0 where there are no more, and what is left over is dropped. Another list, and one whose
    /// frame doesn't fit, is refused, and changes nothing.
    #[inline(always)]
    #[tactic(auto, using(crate::proofs::PlainLemmas::plain_size))]
    pub fn enter_plain(&mut self, format: &[u8], values: &[u32]) -> bool
        ensures made { result ≡ true → self.new ≡ record self.old {
          bytes = self.old.bytes ++ frames.frame_of_words format.now
              (frames.filled (slice_index format.now 1) values.now);
          frame = length self.old.bytes;
        } }
        ensures plain { result ≡ true → frames.IsPlain format.now }
        ensures fits { result ≡ true
            → length self.old.bytes + frames.frame_len_of format.now ≤ self.old.limit }
        ensures full { result ≡ false → frames.IsPlain format.now
            → self.old.limit < length self.old.bytes + frames.frame_len_of format.now }
        ensures same { result ≡ false → self.new ≡ self.old }

        ensures kept { Chain self.old → IsReady self.old → result ≡ true → Chain self.new }
        ensures there { result ≡ true → HasFrame self.new }
        ensures size { result ≡ true → frames.frame_len_of format.now ≤ MAX_STACK }
    {
        let Some(count) = plain_count(format) else {
            return false;
        };
        if !self.has_room(12 + 4 * u64::from(count)) {
            return false;
        }
        self.add_plain(format, count, values);
        true
    }

    // Puts such a frame on top, with so many locals.
    #[inline(always)]
    fn add_plain(&mut self, format: &[u8], count: u8, values: &[u32])
        requires plain { frames.IsPlain format.now }
        requires count { count ≡ slice_index format.now 1 }
        requires size { length self.old.bytes + 12 + 4 * count ≤ MAX_STACK }
        requires room { length self.old.bytes + 12 + 4 * count ≤ self.old.limit }
        ensures { self.new ≡ record self.old {
          bytes = self.old.bytes ++ frames.frame_of_words format.now
              (frames.filled count values.now);
          frame = length self.old.bytes;
        } }
    {
        let start = self.length();
        let span = 4 * u32::from(count);
        self.add(&(12 + span).to_be_bytes());
        self.add(&[0, 0, 0, 12]);
        self.add(&[format[0], count, 0, 0]);
        self.add_words(count, values);
        let begin = start as usize + 12;
        self.set_whole_frame(
            start,
            Head {
                locals: begin,
                span: span as usize,
                values: begin + span as usize,
            },
        );
    }

    // Puts so many words on top: the values, and 0 where there are no more.
    #[inline(always)]
    fn add_words(&mut self, count: u8, values: &[u32])
        requires { length self.old.bytes + 4 * count ≤ self.old.limit }
        ensures { self.new ≡ record self.old {
          bytes = self.old.bytes ++ words (frames.filled count values.now);
        } }
    {
        let mut put = 0;
        while put < count as usize {
            self.add(&value_at(values, put).to_be_bytes());
            put += 1;
        }
    }
}

// The value at a place, or 0 where there are no more.
#[inline(always)]
fn value_at(values: &[u32], at: usize) -> u32
    ensures { result ≡ get_or values.now at 0 }
{
    if at < values.len() { values[at] } else { 0 }
}

// How many locals such a list has. None for any other.
#[inline(always)]
fn plain_count(format: &[u8]) -> Option<u8>
    ensures plain { IfSome result (λ _. frames.IsPlain format.now) }
    ensures count { IfSome result (λ count. count ≡ slice_index format.now 1) }
    ensures none { IfNone result (frames.IsPlain format.now → ⊥) }
{
    match *format {
        [4, count, 0, 0] => Some(count),
        [0, 0] => Some(0),
        _ => None,
    }
}
