// The stack's bytes in one reserved buffer, and the few ways in which they change.
ghost use Rattle.std.specs.Prelude.{◌≡◌, ◌≤◌, ◌+◌, ◌-◌, [], length, take, drop, IfOk, replicate};
ghost use Rattle.std.specs.Prelude.{nat_le, true, ◌++◌};
ghost use Rattle.vm_stack.specs.StackState as state;
ghost use Rattle.vm_stack.specs.Values as values;
ghost use Rattle.vm_stack.specs.Head.{IsHead};

use crate::bytes::{append, append_zeros, number, put, put_held, rotate};
use crate::head::{Head, head_of, no_head};
use std::alloc::{AllocError, Global};
use std::marker::Model;

/// The greatest size of a stack, in bytes.
pub const MAX_STACK: u32 = 1_048_576;

/// A stack. Contracts see the bytes that stand, where the current frame begins, and the size.
#[derive(Drop)]
pub struct Stack {
    buf: Vec<u8>,
    len: usize,
    frame: u32,
    pub(crate) head: Head,
}

impl Model for Stack {
    ghost use Rattle.std.specs.Prelude.{◌≤◌, length, take};
    ghost use Rattle.vm_stack.specs.StackState.{StackState};
    ghost use Rattle.vm_stack.specs.Head.{IsHead};

    ghost Value = { StackState };

    ghost view = { λ s. record {
      bytes = take s.len s.buf.items;
      frame = s.frame;
      limit = length s.buf.items;
    } };

    ghost invariant = { λ s. (s.len ≤ length s.buf.items) × ((length s.buf.items ≤ 1048576)
        × IsHead (take s.len s.buf.items) s.frame s.head) };
}

impl Stack {
    /// An empty stack of this size in bytes. All its room is reserved here.
    pub fn with_size(alloc: Global, size: u32) -> Result<Stack, AllocError>
        requires { size ≤ MAX_STACK }
        ensures { IfOk result (λ s. s ≡ record { bytes = []; frame = 0; limit = size }) }
    {
        let mut buf = Vec::with_capacity(alloc, size as usize)?;
        buf.resize(size as usize, 0)?;
        Ok(Stack {
            buf,
            len: 0,
            frame: 0,
            head: no_head(),
        })
    }

    /// How many bytes stand (the Glulx StackPtr).
    #[inline(always)]
    pub fn length(&self) -> u32
        ensures { result ≡ length self.now.bytes }
    {
        self.len as u32
    }

    /// The bytes that stand.
    #[inline(always)]
    pub fn live(&self) -> &[u8]
        ensures bytes { result.now ≡ self.now.bytes }
        ensures limit { length self.now.bytes ≤ MAX_STACK }
    {
        &self.buf[..self.len]
    }

    /// The stack's size in bytes.
    pub fn size(&self) -> usize
        ensures value { result ≡ self.now.limit }
        ensures within { result ≤ MAX_STACK }
        ensures holds { length self.now.bytes ≤ result }
    {
        self.buf.len()
    }

    /// Where the current frame begins (the Glulx FramePtr), 0 where there is none.
    #[inline(always)]
    pub fn frame(&self) -> u32
        ensures { result ≡ self.now.frame }
    {
        self.frame
    }

    // Whether so many bytes are free.
    #[inline(always)]
    pub(crate) fn has_room(&self, count: u64) -> bool
        ensures value { result ≡ nat_le (length self.now.bytes + count) self.now.limit }
        ensures within { result ≡ true → length self.now.bytes + count ≤ MAX_STACK }
        ensures limit { length self.now.bytes ≤ MAX_STACK }
    {
        count <= (self.buf.len() - self.len) as u64
    }

    // Whether the current frame holds a value, as far as is kept of it.
    #[inline(always)]
    pub(crate) fn has_word(&self) -> bool
        ensures { result ≡ true → 4 ≤ state.value_bytes self.now }
    {
        self.head.values <= self.len.saturating_sub(4)
    }

    // How many bytes the values of the current frame have.
    #[inline(always)]
    pub(crate) fn value_bytes(&self) -> usize
        ensures value { result ≡ state.value_bytes self.now }
        ensures within { result ≤ length self.now.bytes }
        ensures limit { result ≤ MAX_STACK }
    {
        if self.head.values <= self.len {
            return self.len - self.head.values;
        }
        self.value_bytes_by_number()
    }

    // The same by FrameLen, where nothing is kept of the frame.
    #[cold]
    #[inline(never)]
    fn value_bytes_by_number(&self) -> usize
        ensures value { result ≡ state.value_bytes self.now }
        ensures within { result ≤ length self.now.bytes }
        ensures limit { result ≤ MAX_STACK }
    {
        let bytes = self.live();
        let start = self.frame as usize + number(bytes, self.frame as usize, 4) as usize;
        bytes.len().saturating_sub(start)
    }

    // Puts the bytes on top.
    #[inline(always)]
    pub(crate) fn add(&mut self, new: &[u8])
        requires { length self.old.bytes + length new.now ≤ self.old.limit }
        ensures { self.new ≡ record self.old { bytes = self.old.bytes ++ new.now } }
    {
        append(&mut self.buf, self.len, new);
        self.len += new.len();
    }

    // Puts zeros on top.
    pub(crate) fn add_zeros(&mut self, count: usize)
        requires { length self.old.bytes + count ≤ self.old.limit }
        ensures { self.new ≡ record self.old { bytes = self.old.bytes ++ replicate count 0 } }
    {
        append_zeros(&mut self.buf, self.len, count);
        self.len += count;
    }

    // Drops the bytes on top.
    #[inline(always)]
    pub(crate) fn shrink(&mut self, count: usize)
        requires { count ≤ length self.old.bytes }
        ensures { self.new ≡ values.without_top self.old count }
    {
        self.len -= count;
        if self.head.values <= self.len {
            return;
        }
        self.head = no_head();
    }

    // Keeps so many bytes, or all where there are no more.
    pub(crate) fn truncate(&mut self, to: usize)
        ensures { self.new ≡ record self.old { bytes = take to self.old.bytes } }
    {
        if to < self.len {
            self.len = to;
            self.head = no_head();
        }
    }

    // Keeps so many bytes, and makes the frame that begins here the current one.
    #[inline(always)]
    pub(crate) fn drop_to(&mut self, to: usize, frame: u32)
        requires { to ≤ length self.old.bytes }
        ensures { self.new ≡ record self.old { bytes = take to self.old.bytes; frame = frame } }
    {
        self.len = to;
        self.frame = frame;
        self.head = head_of(&self.buf[..to], frame);
    }

    // Turns the bytes on top.
    pub(crate) fn rotate_top(&mut self, count: usize, by: usize)
        requires inside { count ≤ length self.old.bytes }
        requires turn { by ≤ count }
        ensures { self.new ≡ record self.old {
          bytes = take (length self.old.bytes - count) self.old.bytes
              ++ values.rotated (drop (length self.old.bytes - count) self.old.bytes) by;
        } }
    {
        rotate(&mut self.buf, self.len, count, by);
        self.head = head_of(&self.buf[..self.len], self.frame);
    }

    // Puts the bytes in place of those at a place.
    #[inline(always)]
    pub(crate) fn replace(&mut self, at: usize, new: &[u8])
        ensures { self.new ≡ record self.old {
          bytes = state.replaced_within self.old.bytes at new.now;
        } }
    {
        put(&mut self.buf, self.len, at, new);
        if self.frame as usize + 8 <= at {
            return;
        }
        self.head = head_of(&self.buf[..self.len], self.frame);
    }

    // The same where they all stand, behind the numbers of the current frame.
    #[inline(always)]
    pub(crate) fn replace_held(&mut self, at: usize, new: &[u8])
        requires above { self.old.frame + 8 ≤ at }
        requires below { at + length new.now ≤ length self.old.bytes }
        ensures { self.new ≡ record self.old {
          bytes = state.replaced_within self.old.bytes at new.now;
        } }
    {
        put_held(&mut self.buf, self.len, at, new);
    }

    // Makes the frame that begins here the current one, of which this is known.
    #[inline(always)]
    pub(crate) fn set_whole_frame(&mut self, frame: u32, head: Head)
        requires { IsHead self.old.bytes frame head }
        ensures { self.new ≡ record self.old { frame = frame } }
    {
        self.frame = frame;
        self.head = head;
    }

    // Makes the frame that begins here the current one.
    pub(crate) fn set_frame(&mut self, frame: u32)
        ensures { self.new ≡ record self.old { frame = frame } }
    {
        self.frame = frame;
        self.head = head_of(&self.buf[..self.len], frame);
    }
}
