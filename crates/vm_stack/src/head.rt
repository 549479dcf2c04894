// Where the locals and the values of the current frame begin, kept beside the bytes.
ghost use Rattle.std.specs.Prelude.{ℕ, ◌≤◌, List, length};
ghost use Rattle.vm_stack.specs.Head.{IsHead};

use crate::bytes::held;
use crate::stack::MAX_STACK;

/// Where the locals and the values of a frame that stands whole begin, and how many bytes the
/// locals have. Of another frame nothing is kept.
#[derive(Clone, Copy, Debug, PartialEq, Eq)]
pub(crate) struct Head {
    pub(crate) locals: usize,
    pub(crate) span: usize,
    pub(crate) values: usize,
}

/// Nothing is kept: no locals, and values past every stack's end.
#[inline(always)]
pub(crate) fn no_head() -> Head
    ensures none { (bytes : List ℕ) (frame : ℕ) → IsHead bytes frame result }
{
    Head {
        locals: 0,
        span: 0,
        values: 0x1_0000_0000,
    }
}

/// What is to be kept of the frame that begins at a place.
pub(crate) fn head_of(bytes: &[u8], frame: u32) -> Head
    requires { length bytes.now ≤ MAX_STACK }
    ensures { IsHead bytes.now frame result }
{
    let frame = frame as usize;
    if bytes.len() < 8 || bytes.len() - 8 < frame {
        return no_head();
    }
    let locals = frame + held(bytes, frame + 4, 4) as usize;
    let values = frame + held(bytes, frame, 4) as usize;
    if locals < frame + 8 || values < locals || bytes.len() < values {
        return no_head();
    }
    Head {
        locals,
        span: values - locals,
        values,
    }
}
