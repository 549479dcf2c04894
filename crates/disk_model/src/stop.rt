//! An image that a stop may leave, drawn from a number.

ghost use Rattle.std.specs.Prelude.{◌≡◌, ◌≤◌, ◌<◌, ◌%◌, true, false, IfOk, length, slice_index};
ghost use Rattle.disk_model.specs.DiskState.{DiskState, greatest_end, IsDiskImage, IsLanded};
ghost use Rattle.disk_model.specs.Drawn.{keeps, written_by, IsDrawn};

use std::alloc::{AllocError, Global};

/// The greatest of this size and the ends of the ranges.
pub fn last_end(ranges: &[(u64, u64)], size: u64) -> u64
    ensures { result ≡ greatest_end ranges.now size }
{
    let mut end = size;
    for range in ranges {
        end = end.max(range.1);
    }
    end
}

// Between the size that a sync left and the greatest end written.
fn image_size(ranges: &[(u64, u64)], size: u64, choice: u64) -> u64
    ensures low { size ≤ result }
    ensures high { result ≤ greatest_end ranges.now size }
    ensures even { choice % 2 ≡ 0 → result ≡ size }
    ensures odd { choice % 2 ≡ 1 → result ≡ greatest_end ranges.now size }
{
    if choice % 2 == 1 {
        return last_end(ranges, size);
    }
    size
}

fn keeps(choice: u64, place: u64) -> bool
    ensures { result ≡ keeps choice place }
{
    (choice >> (place % 4 + 1)) % 2 == 1
}

// Of which writes the choice keeps.
fn written_by<'a>(seen: &'a [u8], landed: &'a [u8], choice: u64) -> &'a [u8]
    ensures { result.now ≡ written_by choice seen.now landed.now }
{
    if choice % 2 == 1 { landed } else { seen }
}

// The choice says whether the byte that was written is kept or lost; what was never there is
// rubbish.
fn image_byte(synced: &[u8], written: &[u8], choice: u64, place: u64) -> u8
    ensures kept { place < length written.now → keeps choice place ≡ true
        → result ≡ slice_index written.now place }
    ensures lost { place < length synced.now → keeps choice place ≡ false
        → result ≡ slice_index synced.now place }
    ensures rubbish { length synced.now ≤ place → keeps choice place ≡ false → result ≡ 255 }
{
    if keeps(choice, place) && place < written.len() as u64 {
        return written[place as usize];
    }
    if place < synced.len() as u64 {
        return synced[place as usize];
    }
    255
}

/// An image of what a sync left, what it reads as, what would have landed, and where was written
/// since.
pub fn draw_image(
    alloc: Global,
    synced: &[u8],
    seen: &[u8],
    landed: &[u8],
    ranges: &[(u64, u64)],
    choice: u64,
) -> Result<Vec<u8>, AllocError>
    requires seen { IsDiskImage
        (record { synced = synced.now; seen = seen.now; ranges = ranges.now }) seen.now }
    requires landed { IsLanded
        (record { synced = synced.now; seen = seen.now; ranges = ranges.now }) landed.now }
    ensures image { IfOk result (λ image. IsDiskImage
        (record { synced = synced.now; seen = seen.now; ranges = ranges.now }) image.items) }
    ensures drawn { IfOk result (λ image. IsDrawn
        (record { synced = synced.now; seen = seen.now; ranges = ranges.now })
        landed.now choice image.items) }
{
    let written = written_by(seen, landed, choice);
    let end = image_size(ranges, synced.len() as u64, choice);
    let mut image = Vec::new(alloc);
    for place in 0..end {
        image.push(image_byte(synced, written, choice, place))?;
    }
    Ok(image)
}
