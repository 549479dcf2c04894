// A stack as bytes of its own: copied, loaded, and told from other bytes.
ghost use Rattle.std.specs.Prelude.{◌≡◌, ◌≤◌, ◌<◌, ◌+◌, ◌-◌, ◌%◌, ◌++◌, length, take, drop, true};
ghost use Rattle.std.specs.Prelude.{Some, None, IfOk, OnErr, OnOk};
ghost use Rattle.byteorder.specs.Endian.{big_bytes};
ghost use Rattle.vm_stack.specs.Answer.{LeavesStack};
ghost use Rattle.vm_stack.specs.StackState as state;
ghost use Rattle.vm_stack.specs.Frame as frames;
ghost use Rattle.vm_stack.specs.Chain.{Chain, EndsInOwnStub, HasFrame};
ghost use Rattle.vm_stack.specs.Saved.{SavedStack, LinkedFrames, OneFrame, format_from, is_type};

use crate::bytes::number;
use crate::fault::StackFault;
use crate::frame::{aligned, locals_end};
use crate::stack::{MAX_STACK, Stack};
use std::alloc::{AllocError, Global};

/// The bytes of a stub.
const STUB_SIZE: u32 = 16;

impl Stack {
    /// The stack of this size on which these bytes stand, its current frame at this place. None
    /// where the bytes are more.
    pub fn of_fields(
        alloc: Global,
        size: u32,
        bytes: &[u8],
        frame: u32,
    ) -> Result<Option<Stack>, AllocError>
        requires { size ≤ MAX_STACK }
        ensures found { length bytes.now ≤ size → IfOk result (λ stack. stack
            ≡ Some (record { bytes = bytes.now; frame = frame; limit = size })) }
        ensures none { size < length bytes.now → IfOk result (λ stack. stack ≡ None) }
    {
        if bytes.len() > size as usize {
            return Ok(None);
        }
        let mut stack = Stack::with_size(alloc, size)?;
        stack.add(bytes);
        stack.set_frame(frame);
        Ok(Some(stack))
    }

    /// Whether the stack is call frames down to 0, each but the current one with a stub on top that
    /// names it, and there is one at least.
    pub fn is_framed(&self) -> bool
        ensures only { result ≡ true → Chain self.now × HasFrame self.now }
        ensures found { Chain self.now → HasFrame self.now → result ≡ true }
    {
        let bytes = self.live();
        let start = self.frame() as usize;
        if start >= bytes.len() {
            return false;
        }
        if !is_frame(&bytes[start..], 0) {
            return false;
        }
        start == 0 || is_chain(&bytes[..start])
    }

    /// The bytes that stand, in a vector of their own.
    pub fn copy_bytes(&self, alloc: Global) -> Result<Vec<u8>, AllocError>
        ensures value { IfOk result (λ v. v.items ≡ self.now.bytes) }
        ensures within { IfOk result (λ v. length v.items ≤ self.now.limit) }
    {
        let _size = self.size();
        let bytes = self.live();
        let mut copy = Vec::with_capacity(alloc, bytes.len())?;
        copy.extend_from_slice(bytes)?;
        Ok(copy)
    }

    /// Takes the bytes in place of its own. The current frame is then that which the FramePtr on
    /// top names. Overflow where they are longer than the stack's size.
    pub fn load(&mut self, bytes: &[u8]) -> Result<(), StackFault>
        ensures ok { LeavesStack (frames.stack_loaded self.old bytes.now) self.new result }
        ensures err { OnErr result (self.new ≡ self.old) }

        ensures kept { LinkedFrames bytes.now → OnOk result (Chain self.new) }
        ensures own { OnOk result (EndsInOwnStub self.new) }
    {
        if bytes.len() > self.size() {
            return Err(StackFault::Overflow);
        }
        self.put_all(bytes);
        Ok(())
    }

    // Takes the bytes in place of its own.
    fn put_all(&mut self, bytes: &[u8])
        requires { length bytes.now ≤ self.old.limit }
        ensures { self.new ≡ frames.in_named_frame self.old bytes.now }
    {
        self.truncate(0);
        self.add(bytes);
        self.find_frame();
    }
}

/// Whether the bytes are call frames down to 0 with a stub on top, as a saved stack has them. At
/// most `MAX_STACK` bytes may be asked of. Of a stub only FramePtr is looked at.
pub fn is_chain(bytes: &[u8]) -> bool
    requires { length bytes.now ≤ MAX_STACK }
    ensures only { result ≡ true → SavedStack bytes.now }
    ensures found { SavedStack bytes.now → result ≡ true }
{
    if bytes.len() < 16 {
        return false;
    }
    let mut end = bytes.len();
    while end > 0 {
        let start = stub_frame(bytes, end);
        if start >= end {
            return false;
        }
        if !is_frame(&bytes[start..end], STUB_SIZE) {
            return false;
        }
        end = start;
    }
    true
}

// The frame that the stub names that ends at a place.
fn stub_frame(bytes: &[u8], end: usize) -> usize
    requires { end ≤ length bytes.now }
    ensures { result ≡ state.number 4 (take end bytes.now) (end - 4) }
{
    number(&bytes[..end], end.saturating_sub(4), 4) as usize
}

// Whether the bytes are a frame with so many bytes of values at least.
fn is_frame(bytes: &[u8], room: u32) -> bool
    requires size { length bytes.now ≤ MAX_STACK }
    requires room { room ≤ STUB_SIZE }
    ensures only { result ≡ true → OneFrame room bytes.now }
    ensures found { OneFrame room bytes.now → result ≡ true }
{
    if bytes.len() < 8 {
        return false;
    }
    let size = format_len(&bytes[8..]);
    if size == 0 {
        return false;
    }
    is_frame_of(bytes, &bytes[8..8 + size], room)
}

// Whether the bytes are a frame of this format, with so many bytes of values at least.
fn is_frame_of(bytes: &[u8], format: &[u8], room: u32) -> bool
    requires size { length bytes.now ≤ MAX_STACK }
    requires room { room ≤ STUB_SIZE }
    requires inside { 8 + length format.now ≤ length bytes.now }
    ensures long { result ≡ true → frames.frame_len_of format.now + room ≤ length bytes.now }
    ensures fours { result ≡ true → length bytes.now % 4 ≡ 0 }
    ensures head { result ≡ true → take (8 + length format.now) bytes.now
        ≡ frames.frame_head format.now }
    ensures found { frames.frame_len_of format.now + room ≤ length bytes.now
        → length bytes.now % 4 ≡ 0
        → take (8 + length format.now) bytes.now ≡ frames.frame_head format.now
        → result ≡ true }
{
    let head = aligned(4, 8 + format.len() as u64);
    let rest = aligned(4, locals_end(0, format));
    if (bytes.len() as u64) < head + rest + u64::from(room) {
        return false;
    }
    if bytes.len() % 4 != 0 {
        return false;
    }
    has_head(
        &bytes[..8 + format.len()],
        format,
        head as u32,
        (head + rest) as u32,
    )
}

// Whether the bytes are these two numbers and the format.
fn has_head(bytes: &[u8], format: &[u8], head: u32, size: u32) -> bool
    requires { length bytes.now ≡ 8 + length format.now }
    ensures only { result ≡ true
        → bytes.now ≡ big_bytes 4 size ++ big_bytes 4 head ++ format.now }
    ensures found { bytes.now ≡ big_bytes 4 size ++ big_bytes 4 head ++ format.now
        → result ≡ true }
{
    if !stands(bytes, 0, &size.to_be_bytes()) {
        return false;
    }
    if !stands(bytes, 4, &head.to_be_bytes()) {
        return false;
    }
    stands(bytes, 8, format)
}

// Whether these bytes stand at a place.
fn stands(bytes: &[u8], at: usize, part: &[u8]) -> bool
    requires { at + length part.now ≤ length bytes.now }
    ensures only { result ≡ true → take (length part.now) (drop at bytes.now) ≡ part.now }
    ensures found { take (length part.now) (drop at bytes.now) ≡ part.now → result ≡ true }
{
    &bytes[at..at + part.len()] == part
}

// How long the format is that begins the bytes, 0 where there is none.
fn format_len(bytes: &[u8]) -> usize
    requires { length bytes.now ≤ MAX_STACK }
    ensures value { result ≡ format_from 0 bytes.now }
    ensures inside { result ≤ length bytes.now }
{
    let mut at = 0;
    while bytes.len() - at >= 2 {
        if bytes[at] == 0 {
            return if bytes[at + 1] == 0 { at + 2 } else { 0 };
        }
        if !is_local_type(bytes[at]) {
            return 0;
        }
        at += 2;
    }
    0
}

// Whether a local may have this type.
fn is_local_type(size: u8) -> bool
    ensures { result ≡ is_type size }
{
    size == 1 || size == 2 || size == 4
}
