//! The table of held pages: rows of 64 pages, both made where they are first wanted.

ghost use Rattle.std.specs.Prelude.{◌≡◌, ◌≢◌, ◌≤◌, ◌<◌, ◌+◌, ◌/◌, ◌%◌, ℕ};
ghost use Rattle.std.specs.Prelude.{[], IfOk, List, OnOk, length, nat_le, take};
ghost use Rattle.vm_memory.specs.MemoryMap.{replaced};
ghost use Rattle.vm_memory.specs.Pages.{Cuts, IsHeld, Shows, ShowsPage, items_at, page_in};
ghost use Rattle.vm_memory.specs.Pages.{page_after_write};

use std::alloc::{AllocError, Global};

/// How many bytes a page has.
pub(crate) const PAGE: u32 = 256;

/// A page as far as it is held: no byte, or all.
pub(crate) type Page = Vec<u8>;

/// The pages of 64 numbers.
pub(crate) type Row = Vec<Page>;

/// What the vector at a place holds.
#[inline(always)]
#[tactic(auto, using(crate::proofs::RowLemmas::items_at_read, crate::proofs::RowLemmas::items_at_past))]
pub(crate) fn items_of<T>(vectors: &[Vec<T>], n: usize) -> &[T]
    ensures { result.now ≡ items_at vectors.now n }
{
    match vectors.get(n) {
        Some(vector) => vector,
        None => &[],
    }
}

/// What is held of the page of a number.
#[inline(always)]
#[tactic(auto, unfolding(crate::specs::Pages::page_in))]
pub(crate) fn page_of(rows: &[Row], number: u32) -> &[u8]
    ensures { result.now ≡ page_in rows.now number }
{
    items_of(
        items_of(rows, (number / 64) as usize),
        (number % 64) as usize,
    )
}

// Writes the bytes at the place.
#[inline(always)]
fn put(bytes: &mut [u8], at: usize, new: &[u8])
    requires { at + length new.now ≤ length bytes.old }
    ensures { bytes.new ≡ replaced bytes.old at new.now }
{
    bytes[at..at + new.len()].copy_from_slice(new);
}

// Writes into a page, if so much of it is held.
#[inline(always)]
fn put_held(page: &mut [u8], at: usize, new: &[u8]) -> bool
    requires { at + length new.now ≤ 256 }
    ensures puts { page.new ≡ page_after_write at new.now page.old }
    ensures held { result ≡ nat_le (at + length new.now) (length page.old) }
{
    if at + new.len() <= page.len() {
        put(page, at, new);
        true
    } else {
        false
    }
}

// Writes into a page of a row, if so much of it is held.
#[inline(always)]
fn put_in_row(pages: &mut [Page], n: usize, at: usize, new: &[u8]) -> bool
    requires some { 0 < length new.now }
    requires within { at + length new.now ≤ 256 }
    ensures puts { items_at pages.new n ≡ page_after_write at new.now (items_at pages.old n) }
    ensures kept { (k : ℕ) → k ≢ n → items_at pages.new k ≡ items_at pages.old k }
    ensures held { result ≡ nat_le (at + length new.now) (length (items_at pages.old n)) }
{
    if n < pages.len() {
        put_held(&mut pages[n], at, new)
    } else {
        false
    }
}

/// Writes into the page of a number, if so much of it is held.
#[inline(always)]
pub(crate) fn put_in_page(rows: &mut [Row], number: u32, at: usize, new: &[u8]) -> bool
    requires some { 0 < length new.now }
    requires within { at + length new.now ≤ 256 }
    ensures puts { page_in rows.new number ≡ page_after_write at new.now (page_in rows.old number) }
    ensures kept { (k : ℕ) → k ≢ number → page_in rows.new k ≡ page_in rows.old k }
    ensures held { result ≡ nat_le (at + length new.now) (length (page_in rows.old number)) }
{
    let row = (number / 64) as usize;
    if row < rows.len() {
        put_in_row(&mut rows[row], (number % 64) as usize, at, new)
    } else {
        false
    }
}

// Makes empty vectors up to this number of them.
fn grow<T: Drop>(alloc: Global, vectors: &mut Vec<Vec<T>>, n: usize) -> Result<(), AllocError>
    ensures same { (k : ℕ) → items_at vectors.new.items k ≡ items_at vectors.old.items k }
    ensures all { OnOk result (n ≤ length vectors.new.items) }
{
    while vectors.len() < n {
        vectors.push(Vec::new(alloc))?;
    }
    Ok(())
}

// Holds a page whole, whose bytes are shown as before.
fn fill(page: &mut Page, rom: &[u8], number: u32) -> Result<(), AllocError>
    ensures shows { ShowsPage rom.now number page.old.items page.new.items }
    ensures ok { OnOk result (256 ≤ length page.new.items) }
{
    let held = page.len();
    if held >= 256 {
        return Ok(());
    }
    page.reserve_exact(256 - held)?;
    let first = number as usize * 256;
    let start = rom.len().min(first + held);
    let end = rom.len().min(first + 256);
    page.extend_from_slice(&rom[start..end])?;
    page.resize(256, 0)
}

// Holds the page of a number in its row.
fn hold_in_row(
    alloc: Global,
    rom: &[u8],
    pages: &mut Vec<Page>,
    number: u32,
) -> Result<(), AllocError>
    ensures shows { ShowsPage rom.now number (items_at pages.old.items (number % 64))
        (items_at pages.new.items (number % 64)) }
    ensures kept { (k : ℕ) → k ≢ number % 64
        → items_at pages.new.items k ≡ items_at pages.old.items k }
    ensures ok { OnOk result (256 ≤ length (items_at pages.new.items (number % 64))) }
{
    let n = (number % 64) as usize;
    grow(alloc, pages, n + 1)?;
    fill(&mut pages[n], rom, number)
}

/// Holds the page of a number.
#[cold]
pub(crate) fn hold(
    alloc: Global,
    rom: &[u8],
    rows: &mut Vec<Row>,
    number: u32,
) -> Result<(), AllocError>
    ensures shows { Shows rom.now rows.old.items rows.new.items }
    ensures ok { OnOk result (IsHeld rows.new.items number) }
{
    let row = (number / 64) as usize;
    grow(alloc, rows, row + 1)?;
    hold_in_row(alloc, rom, &mut rows[row], number)
}

// Gives up the pages of a row past a number, and of that page the bytes past a length.
fn cut_row(pages: &mut Vec<Page>, n: usize, len: usize)
    requires { n < 64 }
    ensures here { items_at pages.new.items n ≡ take len (items_at pages.old.items n) }
    ensures below { (k : ℕ) → k < n → items_at pages.new.items k ≡ items_at pages.old.items k }
    ensures past { (k : ℕ) → n < k → items_at pages.new.items k ≡ [] }
{
    pages.truncate(n + 1);
    if n < pages.len() {
        pages[n].truncate(len);
    }
}

/// Gives up what is held from an address on.
pub(crate) fn cut(rows: &mut Vec<Row>, size: u32)
    ensures { (rom : List ℕ) → Cuts rom rows.old.items rows.new.items size }
{
    let number = size / 256;
    let row = (number / 64) as usize;
    rows.truncate(row + 1);
    if row < rows.len() {
        cut_row(
            &mut rows[row],
            (number % 64) as usize,
            (size % 256) as usize,
        );
    }
}

// Copies the pages of a row.
fn copy_row(alloc: Global, pages: &[Page]) -> Result<Row, AllocError>
    ensures { IfOk result (λ row. (k : ℕ) → items_at row.items k ≡ items_at pages.now k) }
{
    let mut row = Vec::with_capacity(alloc, pages.len())?;
    for page in pages {
        row.push(Vec::from_slice(alloc, page)?)?;
    }
    Ok(row)
}

/// Copies the pages that are held.
pub(crate) fn copy_rows(alloc: Global, rows: &[Row]) -> Result<Vec<Row>, AllocError>
    ensures { IfOk result (λ copy. (k : ℕ) → page_in copy.items k ≡ page_in rows.now k) }
{
    let mut copy = Vec::with_capacity(alloc, rows.len())?;
    for row in rows {
        copy.push(copy_row(alloc, row)?)?;
    }
    Ok(copy)
}
