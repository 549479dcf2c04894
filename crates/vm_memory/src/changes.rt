//! Where memory differs from the original list.

ghost use Rattle.std.specs.Prelude.{◌≡◌, ◌≢◌, ◌≤◌, ◌<◌, ◌+◌, ◌/◌, [], ◌∷◌, ℕ, length};
ghost use Rattle.std.specs.Prelude.{slice_index, true, OnErr, OnOk};
ghost use Rattle.vm_memory.specs.Access.{with_bytes};
ghost use Rattle.std.specs.Int.RustNames.{bit_xor};
ghost use Rattle.vm_memory.specs.MemoryMap.{IsNextChange, original_byte};
ghost use Rattle.vm_memory.specs.Pages.{byte_of, page_in};

use crate::Memory;
use crate::laid::{byte_at, image_byte};
use crate::table::{PAGE, Row, items_of, page_of};
use std::alloc::AllocError;

impl Memory<'_> {
    /// The byte of the original list at the address, and 0 past its end.
    #[tactic(auto, using(crate::proofs::ChangeLemmas::original_at))]
    pub fn original1(&self, at: u32) -> u32
        ensures value { result ≡ original_byte self.now at }
        ensures fits { result < 256 }
    {
        u32::from(image_byte(self.rom, at))
    }

    /// The byte at the address by exclusive or with that of the original list.
    #[tactic(auto, using(crate::proofs::ChangeLemmas::original_at, crate::proofs::LaidLemmas::byte_laid, crate::proofs::LaidLemmas::length_laid))]
    pub fn change1(&self, at: u32) -> u8
        requires { at < length self.now.bytes }
        ensures value { result ≡ bit_xor (original_byte self.now at) (slice_index self.now.bytes at) }
    {
        image_byte(self.rom, at) ^ byte_at(self.rom, self.ramstart, &self.rows, at)
    }

    /// Makes the byte at the address that of the original list by exclusive or with the change. The
    /// error is want of memory.
    #[tactic(auto, using(crate::proofs::ChangeLemmas::original_at))]
    pub fn write_change1(&mut self, at: u32, change: u8) -> Result<(), AllocError>
        requires ram { self.old.ramstart ≤ at }
        requires inside { at < length self.old.bytes }
        ensures ok { OnOk result
            (self.new ≡ with_bytes self.old at (bit_xor (original_byte self.old at) change ∷ [])) }
        ensures err { OnErr result (self.new ≡ self.old) }
    {
        self.put(at, &[image_byte(self.rom, at) ^ change])
    }

    /// The first address from this one on whose byte isn't that of the original list, and the size
    /// where there is none. It looks at held pages alone.
    pub fn next_change(&self, from: u32) -> u32
        requires { from ≤ length self.now.bytes }
        ensures first { IsNextChange self.now from result }
    {
        next_changed(self.rom, self.ramstart, &self.rows, from, self.size())
    }
}

/// The address up to which no page is held from this one on. What a row of 64 pages lacks at its end
/// is passed at once.
#[tactic(auto, using(crate::proofs::ChangeLemmas::row_none, crate::proofs::ChangeLemmas::page_none))]
fn unheld_end(rows: &[Row], at: u32) -> u32
    requires { at ≤ 16777216 }
    ensures from { at ≤ result }
    ensures some { page_in rows.now (at / 256) ≡ [] → at < result }
    ensures within { result ≤ 16793600 }
    ensures none { (i : ℕ) → at ≤ i → i < result → page_in rows.now (i / 256) ≡ [] }
{
    if items_of(rows, (at / 16384) as usize).len() <= (at / PAGE % 64) as usize {
        return (at / 16384 + 1) * 16384;
    }
    if page_of(rows, at / PAGE).is_empty() {
        return (at / PAGE + 1) * PAGE;
    }
    at
}

// Zeros, as the original list has them past the file's bytes.
const ZEROS: [u8; 256] = [0; 256];

// Whether sixteen bytes at a place of one slice stand there in the other.
#[inline(always)]
#[tactic(auto, using(crate::proofs::ChangeLemmas::sixteen_alike))]
fn are_alike(these: &[u8], those: &[u8], at: usize) -> bool
    requires these { at + 16 ≤ length these.now }
    requires those { at + 16 ≤ length those.now }
    ensures { result ≡ true → (k : ℕ) → at ≤ k → k < at + 16
        → slice_index these.now k ≡ slice_index those.now k }
{
    these[at..at + 16].starts_with(&those[at..at + 16])
}

// A place from this one on below which two slices are the same.
#[inline(always)]
fn passed(these: &[u8], those: &[u8], from: usize) -> usize
    requires alike { length these.now ≡ length those.now }
    requires few { from ≤ length these.now }
    ensures from { from ≤ result }
    ensures within { result ≤ length these.now }
    ensures same { (k : ℕ) → from ≤ k → k < result
        → slice_index these.now k ≡ slice_index those.now k }
{
    let mut at = from;
    while these.len() - at >= 16 {
        if !are_alike(these, those, at) {
            return at;
        }
        at += 16;
    }
    at
}

// The first place from this one on at which two slices differ; their length where there is none.
fn first_other(these: &[u8], those: &[u8], from: usize) -> usize
    requires alike { length these.now ≡ length those.now }
    requires few { from ≤ length these.now }
    ensures from { from ≤ result }
    ensures within { result ≤ length these.now }
    ensures same { (k : ℕ) → from ≤ k → k < result
        → slice_index these.now k ≡ slice_index those.now k }
    ensures other { result < length these.now
        → slice_index these.now result ≢ slice_index those.now result }
{
    let start = passed(these, those, from);
    for k in start..these.len() {
        if these[k] != those[k] {
            return k;
        }
    }
    these.len()
}

// The same of a page and the image's bytes, one by one, where the file ends in the page.
fn changed_across(rom: &[u8], page: &[u8], first: u32, from: usize, end: usize) -> usize
    requires limit { first ≤ 16777216 }
    requires few { from ≤ end }
    requires held { end ≤ length page.now }
    requires page { end ≤ 256 }
    ensures from { from ≤ result }
    ensures within { result ≤ end }
    ensures same { (k : ℕ) → from ≤ k → k < result
        → slice_index page.now k ≡ slice_index rom.now (first + k) }
    ensures other { result < end
        → slice_index page.now result ≢ slice_index rom.now (first + result) }
{
    for k in from..end {
        if page[k] != image_byte(rom, first + k as u32) {
            return k;
        }
    }
    end
}

/// The first place of a page from this one on, and before the end, whose byte isn't the image's;
/// the end where there is none.
fn changed_in(rom: &[u8], page: &[u8], first: u32, from: usize, end: usize) -> usize
    requires limit { first ≤ 16777216 }
    requires few { from ≤ end }
    requires held { end ≤ length page.now }
    requires page { end ≤ 256 }
    ensures from { from ≤ result }
    ensures within { result ≤ end }
    ensures same { (k : ℕ) → from ≤ k → k < result
        → slice_index page.now k ≡ slice_index rom.now (first + k) }
    ensures other { result < end
        → slice_index page.now result ≢ slice_index rom.now (first + result) }
{
    let start = first as usize;
    if start + end <= rom.len() {
        return first_other(&page[..end], &rom[start..start + end], from);
    }
    if rom.len() <= start {
        return first_other(&page[..end], &ZEROS[..end], from);
    }
    changed_across(rom, page, first, from, end)
}

/// The first address from this one on, and before the size, whose byte isn't the image's; the size
/// where there is none.
#[tactic(auto, using(crate::proofs::LaidLemmas::byte_below))]
fn next_changed(rom: &[u8], ramstart: u32, rows: &[Row], from: u32, size: u32) -> u32
    requires ram { ramstart ≤ size }
    requires from { from ≤ size }
    requires limit { size ≤ 16777216 }
    ensures from { from ≤ result }
    ensures within { result ≤ size }
    ensures same { (i : ℕ) → from ≤ i → i < result
        → byte_of rom.now ramstart rows.now i ≡ slice_index rom.now i }
    ensures other { result < size
        → byte_of rom.now ramstart rows.now result ≢ slice_index rom.now result }
{
    let mut at = from.max(ramstart);
    while at < size {
        let page = page_of(rows, at / PAGE);
        if page.is_empty() {
            at = unheld_end(rows, at).min(size);
        } else {
            let first = at / PAGE * PAGE;
            let end = page.len().min(256).min((size - first) as usize);
            let start = (at - first) as usize;
            if start < end {
                let place = changed_in(rom, page, first, start, end);
                if place < end {
                    return first + place as u32;
                }
            }
            at = (first + PAGE).min(size);
        }
    }
    size
}
