// Why a call on the stack is refused.

/// Why a call on the stack is refused. The stack is then as it was.
#[derive(Clone, Copy, Debug, PartialEq, Eq)]
pub enum StackFault {
    /// The bytes don't fit below the stack's size.
    Overflow,
    /// The current frame holds fewer values than the call needs, or a cut is to no place of the
    /// stack.
    Underflow,
    /// The place passes the end of the current frame's locals.
    BadLocal,
}
