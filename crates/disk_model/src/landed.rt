//! What a disk would read as, had its failed writes landed.

ghost use Rattle.std.specs.Prelude.{◌≡◌, OnOk, IfOk};
ghost use Rattle.disk_model.specs.Calls.{put_in, seen_behind, landed_behind, landed_after};

use crate::call::Call;
use crate::memory::ROOM;
use crate::note::put_piece;
use std::alloc::{AllocError, Global};

// Puts a piece in its place, within the room.
#[tactic(auto, using(crate::proofs::PlainLaws::write_fits))]
fn put_in(bytes: &mut Vec<u8>, place: u64, piece: &[u8]) -> Result<(), AllocError>
    ensures { OnOk result (bytes.new.items ≡ put_in place piece.now bytes.old.items) }
{
    if place as u128 + piece.len() as u128 <= ROOM as u128 {
        put_piece(bytes, place as usize, piece)?;
    }
    Ok(())
}

// One call more.
fn land(
    alloc: Global,
    seen: &mut Vec<u8>,
    landed: &mut Vec<u8>,
    call: &Call,
) -> Result<(), AllocError>
    ensures seen { OnOk result (seen.new.items ≡ seen_behind call.now seen.old.items) }
    ensures landed { OnOk result (landed.new.items
        ≡ landed_behind call.now seen.old.items landed.old.items) }
{
    match call {
        Call::Look => {}
        Call::Write { place, piece, good } => {
            if *good {
                put_in(seen, *place, piece)?;
            }
            put_in(landed, *place, piece)?;
        }
        Call::Sync { good } => {
            if *good {
                *landed = seen.as_slice().to_vec(alloc)?;
            }
        }
    }
    Ok(())
}

/// What a disk that began with these bytes would read as after its calls, had its failed writes
/// since the last sync that was good landed.
pub fn landed(alloc: Global, start: &[u8], calls: &[Call]) -> Result<Vec<u8>, AllocError>
    ensures { IfOk result (λ bytes. bytes.items ≡ landed_after start.now calls.now) }
{
    let mut seen = start.to_vec(alloc)?;
    let mut landed = start.to_vec(alloc)?;
    for call in calls {
        land(alloc, &mut seen, &mut landed, call)?;
    }
    Ok(landed)
}
