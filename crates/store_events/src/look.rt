//! What stands in a snapshot file, of its bytes (own).

ghost use Rattle.std.specs.Prelude.{◌≡◌, ◌<◌, ◌^◌, slice_index};
ghost use Rattle.disk_model.specs.Disk.{ReadsFile};
ghost use Rattle.snap_store.specs.File.{has_header, area_head};
ghost use Rattle.snap_store.specs.Outline.{outline_of};
ghost use Rattle.store_events.specs.Events.{slots_in};

use byteorder::{BigEndian, ByteOrder};
use snap_store::{GATE_A, GATE_B, HEADER, Head, Outline, PAGE, Side, Slots};

// The byte at this place, and 0 past the end.
fn byte_at(file: &[u8], place: usize) -> u8
    ensures { result ≡ slice_index file.now place }
{
    match file.get(place) {
        Some(byte) => *byte,
        None => 0,
    }
}

// Sixteen bytes from this place on, and zeros past the end.
fn bytes_at(file: &[u8], at: u32) -> [u8; 16]
    ensures { ReadsFile file.now at result }
{
    let mut bytes = [0; 16];
    for i in 0..16 {
        bytes[i] = byte_at(file, at as usize + i);
    }
    bytes
}

// How an area begins.
fn head_at(file: &[u8], side: Side) -> Head
    ensures { result ≡ area_head side file.now }
{
    let bytes = bytes_at(file, side.start() as u32);
    Head {
        place: BigEndian::read_u64(&bytes),
        count: BigEndian::read_u32(&bytes[8..]),
        length: BigEndian::read_u32(&bytes[12..]),
    }
}

// The file has its header.
fn has_header(file: &[u8]) -> bool
    ensures { result ≡ has_header file.now }
{
    file.starts_with(&HEADER) && file.len() >= PAGE
}

/// What stands in a file with these bytes.
pub fn outline_of(file: &[u8]) -> Outline
    ensures { result ≡ outline_of file.now }
{
    Outline {
        made: has_header(file),
        size: file.len() as u64,
        gate_a: byte_at(file, GATE_A as usize),
        gate_b: byte_at(file, GATE_B as usize),
        a: head_at(file, Side::A),
        b: head_at(file, Side::B),
    }
}

/// What is known of both gates, where nothing is pending.
pub fn slots_in(file: &[u8]) -> Slots
    ensures { result ≡ slots_in file.now }
{
    let outline = outline_of(file);
    Slots {
        a: outline.slot(Side::A),
        b: outline.slot(Side::B),
    }
}
