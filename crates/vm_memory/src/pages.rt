//! Writes over an image, whose pages are held from the first write on.

ghost use Rattle.std.specs.Prelude.{◌≡◌, ◌≤◌, ◌<◌, ◌+◌, ◌^◌, ◌/◌, ◌%◌, ℕ, length};
ghost use Rattle.std.specs.Prelude.{IsFalse, IsTrue, List, OnErr, OnOk, replicate};
ghost use Rattle.vm_memory.specs.Pages.{HoldsAll, IsHeld, PutsBytes, Shows};

use crate::table::{PAGE, Row, hold, put_in_page};
use std::alloc::{AllocError, Global};

/// Writes bytes at an address, if they lie in one page that is held.
#[inline(always)]
pub(crate) fn put_at(rows: &mut Vec<Row>, at: u32, new: &[u8]) -> bool
    requires { 0 < length new.now }
    ensures puts { IsTrue result
        → (rom : List ℕ) → PutsBytes rom rows.old.items rows.new.items at new.now }
    ensures none { IsFalse result
        → (rom : List ℕ) → Shows rom rows.old.items rows.new.items }
    ensures held { at % 256 + length new.now ≤ 256
        → IsHeld rows.old.items (at / 256) → IsTrue result }
{
    let offset = (at % PAGE) as usize;
    if new.len() <= PAGE as usize - offset {
        put_in_page(rows, at / PAGE, offset, new)
    } else {
        false
    }
}

/// Holds the pages of so many bytes at an address.
pub(crate) fn hold_all(
    alloc: Global,
    rom: &[u8],
    rows: &mut Vec<Row>,
    at: u32,
    count: u32,
) -> Result<(), AllocError>
    requires some { 0 < count }
    requires limit { at + count < 2 ^ 32 }
    ensures shows { Shows rom.now rows.old.items rows.new.items }
    ensures ok { OnOk result (HoldsAll rows.new.items at count) }
{
    for number in at / 256..(at + (count - 1)) / 256 + 1 {
        hold(alloc, rom, rows, number)?;
    }
    Ok(())
}

/// How many of so many bytes at an address lie in its page.
pub(crate) fn span(at: u32, left: u32) -> u32
    requires { 0 < left }
    ensures some { 0 < result }
    ensures left { result ≤ left }
    ensures within { at % 256 + result ≤ 256 }
{
    left.min(256 - at % 256)
}

/// Writes bytes at an address into pages that are held.
pub(crate) fn put_all(rows: &mut Vec<Row>, at: u32, new: &[u8])
    requires limit { at + length new.now < 2 ^ 32 }
    requires held { HoldsAll rows.old.items at (length new.now) }
    ensures { (rom : List ℕ) → PutsBytes rom rows.old.items rows.new.items at new.now }
{
    let count = new.len() as u32;
    let mut done = 0;
    while done < count {
        let end = done + span(at + done, count - done);
        let _ = put_at(rows, at + done, &new[done as usize..end as usize]);
        done = end;
    }
}

/// Writes zeros at an address into pages that are held.
pub(crate) fn clear_all(rows: &mut Vec<Row>, at: u32, count: u32)
    requires limit { at + count < 2 ^ 32 }
    requires held { HoldsAll rows.old.items at count }
    ensures { (rom : List ℕ) → PutsBytes rom rows.old.items rows.new.items at (replicate count 0) }
{
    let mut done = 0;
    while done < count {
        let some = span(at + done, count - done);
        let _ = put_at(rows, at + done, &[0; 256][..some as usize]);
        done += some;
    }
}

/// Writes bytes at an address, or shows every byte as before.
#[inline(always)]
pub(crate) fn write(
    alloc: Global,
    rom: &[u8],
    rows: &mut Vec<Row>,
    at: u32,
    new: &[u8],
) -> Result<(), AllocError>
    requires some { 0 < length new.now }
    requires limit { at + length new.now < 2 ^ 32 }
    ensures ok { OnOk result (PutsBytes rom.now rows.old.items rows.new.items at new.now) }
    ensures err { OnErr result (Shows rom.now rows.old.items rows.new.items) }
{
    if put_at(rows, at, new) {
        return Ok(());
    }
    write_block(alloc, rom, rows, at, new)?;
    Ok(())
}

// The same where a page isn't held yet, or where the bytes pass the end of one.
#[cold]
#[tactic(auto, using(crate::proofs::PutLemmas::puts_after))]
fn write_block(
    alloc: Global,
    rom: &[u8],
    rows: &mut Vec<Row>,
    at: u32,
    new: &[u8],
) -> Result<(), AllocError>
    requires some { 0 < length new.now }
    requires limit { at + length new.now < 2 ^ 32 }
    ensures ok { OnOk result (PutsBytes rom.now rows.old.items rows.new.items at new.now) }
    ensures err { OnErr result (Shows rom.now rows.old.items rows.new.items) }
{
    hold_all(alloc, rom, rows, at, new.len() as u32)?;
    put_all(rows, at, new);
    Ok(())
}

/// Writes zeros at an address, or shows every byte as before.
#[tactic(auto, using(crate::proofs::PutLemmas::puts_after))]
pub(crate) fn clear(
    alloc: Global,
    rom: &[u8],
    rows: &mut Vec<Row>,
    at: u32,
    count: u32,
) -> Result<(), AllocError>
    requires some { 0 < count }
    requires limit { at + count < 2 ^ 32 }
    ensures ok { OnOk result
        (PutsBytes rom.now rows.old.items rows.new.items at (replicate count 0)) }
    ensures err { OnErr result (Shows rom.now rows.old.items rows.new.items) }
{
    hold_all(alloc, rom, rows, at, count)?;
    clear_all(rows, at, count);
    Ok(())
}
