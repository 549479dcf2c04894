//! Keys, read and compared as numbers, the most significant byte first.

ghost use Rattle.std.specs.Prelude.{◌≡◌, ◌<◌, ◌%◌, ◌^◌, ◌&&◌, ◌||◌};
ghost use Rattle.std.specs.Prelude.{◌==◌, length, slice_index, true, Ok, Err, OnOk, IfErr};
ghost use Rattle.std.specs.Ordering.{nat_cmp};
ghost use Rattle.vm_memory.specs.MemoryMap.{number_at};
ghost use Rattle.vm_memory.specs.Access.{read};
ghost use Rattle.vm_search.specs.Key as spec;
ghost use Rattle.vm_search.specs.Key.{LiesIn};
ghost use Rattle.vm_search.specs.Ending.{Looks, at_structure};

use crate::query::{Found, Query};
use std::cmp::Ordering;
use vm_memory::{MAX_SIZE, MemFault, Memory};

/// The number of 1, 2 or 4 bytes at the address.
fn read(memory: &Memory<'_>, size: u32, at: u32) -> Result<u32, MemFault>
    requires { (size == 1 || size == 2 || size == 4) ≡ true }
    ensures value { result ≡ read size memory.now at }
    ensures within { OnOk result (LiesIn memory.now size at) }
{
    prove!(memory.size() <= MAX_SIZE);
    match size {
        1 => memory.read1(at),
        2 => memory.read2(at),
        _ => memory.read4(at),
    }
}

/// A key cut to its size of 1, 2 or 4 bytes.
fn cut(key: u32, size: u32) -> u32
    requires { (size == 1 || size == 2 || size == 4) ≡ true }
    ensures value { result ≡ key % 256 ^ size }
{
    match size {
        1 => key & 0xFF,
        2 => key & 0xFFFF,
        _ => key,
    }
}

/// BadRead where so many bytes at the address don't all lie in memory.
fn check(memory: &Memory<'_>, size: u32, at: u32) -> Result<(), MemFault>
    ensures ok { OnOk result (read size memory.now at ≡ Ok (number_at size memory.now.bytes at)) }
    ensures exact { IfErr result (λ fault. read size memory.now at ≡ Err fault) }
    ensures within { OnOk result (LiesIn memory.now size at) }
{
    if u64::from(at) + u64::from(size) <= u64::from(memory.size()) {
        Ok(())
    } else {
        Err(MemFault::BadRead(at))
    }
}

/// The byte at an address inside memory.
fn byte(memory: &Memory<'_>, at: u32) -> u32
    requires { at < length memory.now.bytes }
    ensures value { result ≡ slice_index memory.now.bytes at }
    ensures within { result < 256 }
{
    match memory.read1(at) {
        Ok(byte) => byte,
        Err(_) => 0,
    }
}

/// How the numbers of so many bytes at two addresses compare. They are read from their ends on, so
/// that each byte decides over those behind it.
fn order(memory: &Memory<'_>, size: u32, left: u32, right: u32) -> Ordering
    requires left { LiesIn memory.now size left }
    requires right { LiesIn memory.now size right }
    ensures value { result ≡ nat_cmp
        (number_at size memory.now.bytes left) (number_at size memory.now.bytes right) }
{
    let mut order = Ordering::Equal;
    let mut index = size;
    while index > 0 {
        index -= 1;
        let one = byte(memory, left + index);
        let other = byte(memory, right + index);
        if one != other {
            order = one.cmp(&other);
        }
    }
    order
}

impl Query {
    /// How the key that is sought compares with that of the structure at the address.
    pub(crate) fn compare(&self, memory: &Memory<'_>, at: u32) -> Result<Ordering, MemFault>
        requires { spec.is_search self.now ≡ true }
        ensures value { result ≡ spec.compared memory.now self.now at }
        ensures within { OnOk result (
            LiesIn memory.now self.now.key_size (spec.key_place self.now at)) }
    {
        let place = at.wrapping_add(self.key_offset);
        if self.is_indirect() {
            check(memory, self.key_size, self.key)?;
            check(memory, self.key_size, place)?;
            Ok(order(memory, self.key_size, self.key, place))
        } else {
            let own = read(memory, self.key_size, place)?;
            Ok(cut(self.key, self.key_size).cmp(&own))
        }
    }

    /// Whether the key of the structure at the address, which lies in memory, is zero.
    pub(crate) fn is_zero(&self, memory: &Memory<'_>, at: u32) -> bool
        requires { LiesIn memory.now self.now.key_size (spec.key_place self.now at) }
        ensures value { result ≡ spec.is_zero memory.now self.now at }
    {
        let place = at.wrapping_add(self.key_offset);
        for index in 0..self.key_size {
            if byte(memory, place + index) != 0 {
                return false;
            }
        }
        true
    }

    /// What the structure at the address, with which so many were looked at, tells: the one answer
    /// at an equal key, the other at a last one, and else None.
    pub(crate) fn look(
        &self,
        memory: &Memory<'_>,
        at: u32,
        looked: u64,
        found: u32,
        failure: u32,
    ) -> Result<Option<Found>, MemFault>
        requires { spec.is_search self.now ≡ true }
        ensures value { Looks looked (at_structure looked found failure
            (spec.ends_at_zero self.now && spec.is_zero memory.now self.now at)
            (spec.compared memory.now self.now at)) result }
    {
        if self.compare(memory, at)? == Ordering::Equal {
            let answer = found;
            return Ok(Some(Found { answer, looked }));
        }
        if self.ends_at_zero() && self.is_zero(memory, at) {
            let answer = failure;
            return Ok(Some(Found { answer, looked }));
        }
        Ok(None)
    }
}
