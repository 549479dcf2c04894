//! The calls of a disk in memory: what each does to its bytes, its ranges and its list of calls.

ghost use Rattle.std.specs.Prelude.{◌≡◌, ℕ, List, ◌+◌, ◌≤◌, ◌<◌, ◌^◌, ◌++◌, [], ◌∷◌, length, take};
ghost use Rattle.std.specs.Prelude.{drop, if◌then◌else◌, vec_capacity, IsOk, OnOk, OnErr};
ghost use Rattle.disk_model.specs.Disk.{file_written, ReadsFile, Elapses};
ghost use Rattle.disk_model.specs.DiskState.{IsDiskImage, IsWell, after_write, after_sync};
ghost use Rattle.disk_model.specs.Calls.{state_after, LeftSince};

use crate::call::Call;
use std::alloc::{AllocError, Global};

// Puts a piece in the place of as many bytes.
fn overwrite(bytes: &mut [u8], place: usize, piece: &[u8])
    requires { place + length piece.now ≤ length bytes.old }
    ensures { bytes.new
        ≡ take place bytes.old ++ piece.now ++ drop (place + length piece.now) bytes.old }
{
    bytes[place..place + piece.len()].copy_from_slice(piece);
}

/// Puts a piece in its place, behind zeros where it begins past the end.
#[tactic(auto, using(crate::proofs::PieceLaws::written_inside, crate::proofs::PieceLaws::written_behind))]
pub fn put_piece(bytes: &mut Vec<u8>, place: usize, piece: &[u8]) -> Result<(), AllocError>
    requires { place + length piece.now < 2 ^ 63 }
    ensures ok { OnOk result (bytes.new.items ≡ file_written bytes.old.items place piece.now) }
    ensures works { place + length piece.now ≤ vec_capacity bytes.old → IsOk result }
    ensures err { OnErr result (bytes.new.items ≡ bytes.old.items) }
    ensures capacity { vec_capacity bytes.old ≤ vec_capacity bytes.new }
{
    let end = place + piece.len();
    if end <= bytes.len() {
        overwrite(bytes, place, piece);
        return Ok(());
    }
    bytes.reserve(end - bytes.len())?;
    let _ = bytes.resize(place, 0);
    let _ = bytes.extend_from_slice(piece);
    Ok(())
}

/// Notes a call that changes nothing.
pub fn note_look(calls: &mut Vec<Call>) -> Result<(), AllocError>
    ensures clock { OnOk result (length calls.new.items ≡ length calls.old.items + 1) }
    ensures state { (start : List ℕ)
        → state_after start calls.new.items ≡ state_after start calls.old.items }
    ensures time { (start : List ℕ)
        → Elapses (length calls.old.items) (length calls.new.items)
        (LeftSince start calls.old.items) (LeftSince start calls.new.items)
        (IsDiskImage (state_after start calls.new.items)) }
    ensures well { (start : List ℕ)
        → IsWell (state_after start calls.old.items)
        → IsWell (state_after start calls.new.items) }
    ensures err { OnErr result (calls.new.items ≡ calls.old.items) }
{
    calls.push(Call::Look)?;
    Ok(())
}

/// Notes a sync.
pub fn note_sync(calls: &mut Vec<Call>, good: bool) -> Result<(), AllocError>
    ensures clock { OnOk result (length calls.new.items ≡ length calls.old.items + 1) }
    ensures state { OnOk result ((start : List ℕ)
        → state_after start calls.new.items
        ≡ after_sync good (state_after start calls.old.items)) }
    ensures time { (start : List ℕ)
        → Elapses (length calls.old.items) (length calls.new.items)
        (LeftSince start calls.old.items) (LeftSince start calls.new.items)
        (IsDiskImage (state_after start calls.new.items)) }
    ensures well { (start : List ℕ)
        → IsWell (state_after start calls.old.items)
        → IsWell (state_after start calls.new.items) }
    ensures err { OnErr result (calls.new.items ≡ calls.old.items) }
{
    calls.push(Call::Sync { good })?;
    Ok(())
}

/// Notes a write, and puts its piece where it is good.
pub fn put(
    alloc: Global,
    bytes: &mut Vec<u8>,
    ranges: &mut Vec<(u64, u64)>,
    calls: &mut Vec<Call>,
    place: u64,
    piece: &[u8],
    good: bool,
) -> Result<(), AllocError>
    requires { place + length piece.now ≤ 2 ^ 40 }
    ensures clock { OnOk result (length calls.new.items ≡ length calls.old.items + 1) }
    ensures bytes { OnOk result (bytes.new.items
        ≡ (if good then file_written bytes.old.items place piece.now else bytes.old.items)) }
    ensures ranges { OnOk result (ranges.new.items
        ≡ ranges.old.items ++ (place, place + length piece.now) ∷ []) }
    ensures state { OnOk result ((start : List ℕ)
        → state_after start calls.new.items
        ≡ after_write good place piece.now (state_after start calls.old.items)) }
    ensures time { (start : List ℕ)
        → Elapses (length calls.old.items) (length calls.new.items)
        (LeftSince start calls.old.items) (LeftSince start calls.new.items)
        (IsDiskImage (state_after start calls.new.items)) }
    ensures well { (start : List ℕ)
        → IsWell (state_after start calls.old.items)
        → IsWell (state_after start calls.new.items) }
    ensures err { OnErr result ((bytes.new.items ≡ bytes.old.items)
        × (ranges.new.items ≡ ranges.old.items)
        × (calls.new.items ≡ calls.old.items)) }
{
    let piece_kept = piece.to_vec(alloc)?;
    ranges.reserve(1)?;
    calls.reserve(1)?;
    if good {
        put_piece(bytes, place as usize, piece)?;
    }
    let _ = calls.push(Call::Write {
        place,
        piece: piece_kept,
        good,
    });
    let _ = ranges.push((place, place + piece.len() as u64));
    Ok(())
}

/// What stands there, and zeros past the end.
pub fn read_into(bytes: &[u8], place: u64, into: &mut [u8])
    ensures { ReadsFile bytes.now place into.new }
{
    for (k, byte) in into.iter_mut().enumerate() {
        let at = place as u128 + k as u128;
        *byte = if at < bytes.len() as u128 {
            bytes[at as usize]
        } else {
            0
        };
    }
}
