//! The bytes that an image and the held pages over it stand for.

ghost use Rattle.std.specs.Prelude.{◌≡◌, ◌≤◌, ◌<◌, ◌+◌, ◌^◌, ◌++◌, ℕ};
ghost use Rattle.std.specs.List.{range_with_len};
ghost use Rattle.std.specs.Prelude.{◌/◌, IfOk, IfSome, OnOk, count_by, drop, length};
ghost use Rattle.std.specs.Prelude.{slice_index, take};
ghost use Rattle.byteorder.specs.Endian.{big_number};
ghost use Rattle.vm_memory.specs.MemoryMap.{number_at};
ghost use Rattle.vm_memory.specs.OwnPages.{page_differs};
ghost use Rattle.vm_memory.specs.Pages.{byte_of, laid};

use crate::pages::span;
use crate::table::{PAGE, Row, page_of};
use byteorder::{BigEndian, ByteOrder};
use std::alloc::{AllocError, Global};

/// The byte at an address.
#[tactic(auto, unfolding(crate::specs::Pages::byte_of, crate::specs::Pages::shown))]
pub(crate) fn byte_at(rom: &[u8], ramstart: u32, rows: &[Row], at: u32) -> u8
    requires { ramstart ≤ length rom.now }
    ensures { result ≡ byte_of rom.now ramstart rows.now at }
{
    if at < ramstart {
        return rom[at as usize];
    }
    match page_of(rows, at / PAGE).get((at % PAGE) as usize) {
        Some(byte) => *byte,
        None => image_byte(rom, at),
    }
}

/// The image's byte at an address, and 0 past its end.
#[inline(always)]
pub(crate) fn image_byte(rom: &[u8], at: u32) -> u8
    ensures { result ≡ slice_index rom.now at }
{
    match rom.get(at as usize) {
        Some(byte) => *byte,
        None => 0,
    }
}

/// So many bytes at an address in RAM, where they stand in one place.
#[inline(always)]
#[tactic(auto, using(crate::proofs::LaidLemmas::slice_page, crate::proofs::LaidLemmas::slice_image))]
fn near_at<'a>(
    rom: &'a [u8],
    ramstart: u32,
    rows: &'a [Row],
    at: u32,
    count: u32,
) -> Option<&'a [u8]>
    requires { at + count < 2 ^ 32 }
    ensures value { IfSome result (λ s. (size : ℕ) → at + count ≤ size
        → s.now ≡ take count (drop at (laid rom.now ramstart rows.now size))) }
    ensures count { IfSome result (λ s. length s.now ≡ count) }
{
    let start = at as usize % 256;
    let end = start + count as usize;
    if at < ramstart || end > 256 {
        return None;
    }
    let page = page_of(rows, at / PAGE);
    if end <= page.len() {
        return Some(&page[start..end]);
    }
    let first = at as usize;
    if page.is_empty() && first + count as usize <= rom.len() {
        return Some(&rom[first..first + count as usize]);
    }
    None
}

/// So many bytes at an address, where they stand in one place.
#[tactic(auto, using(crate::proofs::LaidLemmas::slice_rom))]
pub(crate) fn slice_at<'a>(
    rom: &'a [u8],
    ramstart: u32,
    rows: &'a [Row],
    at: u32,
    count: u32,
) -> Option<&'a [u8]>
    requires ram { ramstart ≤ length rom.now }
    requires limit { at + count < 2 ^ 32 }
    ensures value { IfSome result (λ s. (size : ℕ) → at + count ≤ size
        → s.now ≡ take count (drop at (laid rom.now ramstart rows.now size))) }
    ensures count { IfSome result (λ s. length s.now ≡ count) }
{
    if at + count <= ramstart {
        return Some(&rom[at as usize..(at + count) as usize]);
    }
    near_at(rom, ramstart, rows, at, count)
}

/// The number of two bytes at an address in RAM, where they stand in one place.
#[inline(always)]
#[tactic(auto, using(crate::proofs::LaidLemmas::number_of_slice))]
pub(crate) fn two_near(rom: &[u8], ramstart: u32, rows: &[Row], at: u32) -> Option<u32>
    requires { at + 2 < 2 ^ 32 }
    ensures value { IfSome result (λ x. (size : ℕ) → at + 2 ≤ size
        → x ≡ number_at 2 (laid rom.now ramstart rows.now size) at) }
    ensures fits { IfSome result (λ x. x < 65536) }
{
    match near_at(rom, ramstart, rows, at, 2) {
        Some(bytes) => Some(u32::from(BigEndian::read_u16(bytes))),
        None => None,
    }
}

/// The number of two bytes at an address, wherever each stands.
#[tactic(auto, using(crate::proofs::LaidLemmas::number_of_two))]
pub(crate) fn two_apart(rom: &[u8], ramstart: u32, rows: &[Row], at: u32) -> u32
    requires ram { ramstart ≤ length rom.now }
    requires limit { at + 2 < 2 ^ 32 }
    ensures value { (size : ℕ) → at + 2 ≤ size
        → result ≡ number_at 2 (laid rom.now ramstart rows.now size) at }
    ensures fits { result < 65536 }
{
    u32::from(u16::from_be_bytes([
        byte_at(rom, ramstart, rows, at),
        byte_at(rom, ramstart, rows, at + 1),
    ]))
}

/// The number of four bytes at an address in RAM, where they stand in one place.
#[inline(always)]
#[tactic(auto, using(crate::proofs::LaidLemmas::number_of_slice))]
pub(crate) fn four_near(rom: &[u8], ramstart: u32, rows: &[Row], at: u32) -> Option<u32>
    requires { at + 4 < 2 ^ 32 }
    ensures { IfSome result (λ x. (size : ℕ) → at + 4 ≤ size
        → x ≡ number_at 4 (laid rom.now ramstart rows.now size) at) }
{
    match near_at(rom, ramstart, rows, at, 4) {
        Some(bytes) => Some(BigEndian::read_u32(bytes)),
        None => None,
    }
}

/// The number of four bytes at an address, wherever each stands.
#[tactic(auto, using(crate::proofs::LaidLemmas::number_of_four))]
pub(crate) fn four_apart(rom: &[u8], ramstart: u32, rows: &[Row], at: u32) -> u32
    requires ram { ramstart ≤ length rom.now }
    requires limit { at + 4 < 2 ^ 32 }
    ensures { (size : ℕ) → at + 4 ≤ size
        → result ≡ number_at 4 (laid rom.now ramstart rows.now size) at }
{
    u32::from_be_bytes([
        byte_at(rom, ramstart, rows, at),
        byte_at(rom, ramstart, rows, at + 1),
        byte_at(rom, ramstart, rows, at + 2),
        byte_at(rom, ramstart, rows, at + 3),
    ])
}

// Adds bytes of one page to a block.
fn append_span(
    block: &mut Vec<u8>,
    rom: &[u8],
    ramstart: u32,
    rows: &[Row],
    at: u32,
    count: u32,
) -> Result<(), AllocError>
    requires ram { ramstart ≤ length rom.now }
    requires limit { at + count < 2 ^ 32 }
    ensures { OnOk result ((size : ℕ) → at + count ≤ size → block.new.items
        ≡ block.old.items ++ take count (drop at (laid rom.now ramstart rows.now size))) }
{
    if let Some(bytes) = slice_at(rom, ramstart, rows, at, count) {
        block.extend_from_slice(bytes)?;
        return Ok(());
    }
    for i in at..at + count {
        block.push(byte_at(rom, ramstart, rows, i))?;
    }
    Ok(())
}

/// So many bytes at an address, in a vector of their own.
pub(crate) fn block_at(
    alloc: Global,
    rom: &[u8],
    ramstart: u32,
    rows: &[Row],
    at: u32,
    count: u32,
) -> Result<Vec<u8>, AllocError>
    requires ram { ramstart ≤ length rom.now }
    requires limit { at + count < 2 ^ 32 }
    ensures { IfOk result (λ v. (size : ℕ) → at + count ≤ size
        → v.items ≡ take count (drop at (laid rom.now ramstart rows.now size))) }
{
    let mut block = Vec::with_capacity(alloc, count as usize)?;
    let mut done = 0;
    while done < count {
        let some = span(at + done, count - done);
        append_span(&mut block, rom, ramstart, rows, at + done, some)?;
        done += some;
    }
    Ok(block)
}

// Whether the bytes of a page differ from those of the original list.
#[tactic(auto, using(crate::proofs::OwnLemmas::own_no, crate::proofs::OwnLemmas::own_yes, crate::proofs::OwnLemmas::own_unheld))]
fn is_own(rom: &[u8], ramstart: u32, rows: &[Row], size: u32, number: u32) -> bool
    requires ram { ramstart ≤ length rom.now }
    requires within { length rom.now ≤ size }
    requires limit { number ≤ 65536 }
    ensures { result ≡ page_differs rom.now (laid rom.now ramstart rows.now size) number }
{
    if page_of(rows, number).is_empty() {
        return false;
    }
    let start = number * PAGE;
    for at in start..size.min(start + PAGE) {
        if byte_at(rom, ramstart, rows, at) != image_byte(rom, at) {
            return true;
        }
    }
    false
}

/// How many pages do. Those past the last row aren't held.
pub(crate) fn count_own(rom: &[u8], ramstart: u32, rows: &[Row], size: u32) -> u32
    requires ram { ramstart ≤ length rom.now }
    requires within { length rom.now ≤ size }
    requires limit { size ≤ 16777216 }
    ensures { result ≡ count_by (page_differs rom.now (laid rom.now ramstart rows.now size))
        (range_with_len 0 (size / 256 + 1)) }
{
    let numbers = rows.len().min((size / PAGE / 64 + 1) as usize) as u32 * 64;
    let mut count = 0;
    for number in 0..numbers.min(size / PAGE + 1) {
        if is_own(rom, ramstart, rows, size, number) {
            count += 1;
        }
    }
    count
}
