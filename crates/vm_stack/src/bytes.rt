// Numbers in bytes, and the changes of a buffer of which the first bytes stand.
ghost use Rattle.std.specs.Prelude.{◌≡◌, ◌≤◌, ◌+◌, ◌-◌, ◌++◌, length, take, drop, replicate};
ghost use Rattle.vm_stack.specs.StackState as state;
ghost use Rattle.vm_stack.specs.Values as values;
ghost use Rattle.vm_stack.specs.Locals.{IsWidth};

use byteorder::{BigEndian, ByteOrder};

// The number at a place, or 0 where its bytes pass the end.
#[inline(always)]
pub(crate) fn number(bytes: &[u8], at: usize, width: u32) -> u32
    requires { IsWidth width }
    ensures { result ≡ state.number width bytes.now at }
{
    if bytes.len() < width as usize || bytes.len() - (width as usize) < at {
        return 0;
    }
    held(bytes, at, width)
}

// The number at a place where its bytes all stand.
#[inline(always)]
pub(crate) fn held(bytes: &[u8], at: usize, width: u32) -> u32
    requires width { IsWidth width }
    requires inside { at + width ≤ length bytes.now }
    ensures { result ≡ state.number width bytes.now at }
{
    match width {
        1 => u32::from(bytes[at]),
        2 => u32::from(BigEndian::read_u16(&bytes[at..])),
        _ => BigEndian::read_u32(&bytes[at..]),
    }
}

// Puts the bytes after the first of a buffer.
#[inline(always)]
pub(crate) fn append(buf: &mut [u8], len: usize, new: &[u8])
    requires { len + length new.now ≤ length buf.old }
    ensures bytes { take (len + length new.now) buf.new ≡ take len buf.old ++ new.now }
    ensures size { length buf.new ≡ length buf.old }
{
    // a word, or a list of one pair of locals: no call of the C library
    if let [a, b, c, d] = *new {
        buf[len..len + 4].copy_from_slice(&[a, b, c, d]);
        return;
    }
    buf[len..len + new.len()].copy_from_slice(new);
}

// Puts zeros after the first bytes of a buffer.
pub(crate) fn append_zeros(buf: &mut [u8], len: usize, count: usize)
    requires { len + count ≤ length buf.old }
    ensures bytes { take (len + count) buf.new ≡ take len buf.old ++ replicate count 0 }
    ensures size { length buf.new ≡ length buf.old }
{
    buf[len..len + count].fill(0);
}

// Turns the last of the bytes that stand.
pub(crate) fn rotate(buf: &mut [u8], len: usize, count: usize, by: usize)
    requires within { len ≤ length buf.old }
    requires inside { count ≤ len }
    requires turn { by ≤ count }
    ensures bytes { take len buf.new ≡ take (len - count) (take len buf.old)
        ++ values.rotated (drop (len - count) (take len buf.old)) by }
    ensures size { length buf.new ≡ length buf.old }
{
    rotate_last(&mut buf[..len], count, by);
}

// Turns the last bytes.
fn rotate_last(bytes: &mut [u8], count: usize, by: usize)
    requires inside { count ≤ length bytes.old }
    requires turn { by ≤ count }
    ensures bytes { bytes.new ≡ take (length bytes.old - count) bytes.old
        ++ values.rotated (drop (length bytes.old - count) bytes.old) by }
    ensures size { length bytes.new ≡ length bytes.old }
{
    let at = bytes.len() - count;
    bytes[at..].rotate_right(by);
}

// Puts the bytes in place of those at a place, where they are all among those that stand.
#[inline(always)]
pub(crate) fn put(buf: &mut [u8], len: usize, at: usize, new: &[u8])
    requires { len ≤ length buf.old }
    ensures bytes { take len buf.new ≡ state.replaced_within (take len buf.old) at new.now }
    ensures size { length buf.new ≡ length buf.old }
{
    replace(&mut buf[..len], at, new);
}

// Puts the bytes in place of those at a place, all of which stand.
#[inline(always)]
pub(crate) fn put_held(buf: &mut [u8], len: usize, at: usize, new: &[u8])
    requires size { len ≤ length buf.old }
    requires inside { at + length new.now ≤ len }
    ensures bytes { take len buf.new ≡ state.replaced_within (take len buf.old) at new.now }
    ensures size { length buf.new ≡ length buf.old }
{
    place(&mut buf[..len], at, new);
}

// Puts the bytes in place of those at a place, where they are all inside.
#[inline(always)]
fn replace(bytes: &mut [u8], at: usize, new: &[u8])
    ensures bytes { bytes.new ≡ state.replaced_within bytes.old at new.now }
    ensures size { length bytes.new ≡ length bytes.old }
{
    if bytes.len() < new.len() || bytes.len() - new.len() < at {
        return;
    }
    place(bytes, at, new);
}

// Puts the bytes in place of those at a place.
#[inline(always)]
fn place(bytes: &mut [u8], at: usize, new: &[u8])
    requires { at + length new.now ≤ length bytes.old }
    ensures bytes { bytes.new
        ≡ take at bytes.old ++ new.now ++ drop (at + length new.now) bytes.old }
    ensures size { length bytes.new ≡ length bytes.old }
{
    bytes[at..at + new.len()].copy_from_slice(new);
}
