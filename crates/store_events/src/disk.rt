//! Calls of a disk, and whether they may happen as an event says (own).

ghost use Rattle.std.specs.Prelude.{◌≡◌, ◌+◌, ◌^◌, nat_le, length, if◌then◌else◌, IfOk, OnErr};
ghost use Rattle.store_events.specs.Disk.{disk_after, may_happen};

use disk_model::PlainDisk;
use std::alloc::{AllocError, Global};
use story_text::Bytes;

/// The most bytes of a disk.
const ROOM: u128 = 1 << 40;

/// A call of a disk.
#[derive(Drop)]
pub enum DiskCall {
    /// Bytes are put at this place.
    Write { at: u128, piece: Bytes },
    /// All that was written is made durable.
    Sync,
    /// The size is asked, or something is read.
    Look,
}

fn has_room(at: u128, piece: &[u8]) -> bool
    ensures { result ≡ nat_le (at + length piece.now) (2 ^ 40) }
{
    at.saturating_add(piece.len() as u128) <= ROOM
}

/// The disk makes the call, where it may happen so, and where it isn't good reads as `reads` from
/// then on. Answers whether it did.
pub fn make_call(
    alloc: Global,
    disk: &mut PlainDisk,
    call: &DiskCall,
    good: bool,
    reads: &[u8],
) -> Result<bool, AllocError>
    ensures made { IfOk result (λ made. made ≡ may_happen call.now good reads.now disk.old) }
    ensures disk { IfOk result (λ made. disk.new
        ≡ (if made then disk_after call.now good reads.now disk.old else disk.old)) }
    ensures err { OnErr result (disk.new ≡ disk.old) }
{
    if !good {
        return match call {
            DiskCall::Write { at, piece } => disk.fail_write(alloc, *at, piece.as_slice(), reads),
            DiskCall::Sync => disk.fail(alloc, reads),
            DiskCall::Look => disk.fail(alloc, reads),
        };
    }
    match call {
        DiskCall::Write { at, piece } => {
            if !has_room(*at, piece.as_slice()) {
                return Ok(false);
            }
            disk.write(*at, piece.as_slice())?;
        }
        DiskCall::Sync => disk.sync(alloc)?,
        DiskCall::Look => {}
    }
    Ok(true)
}
