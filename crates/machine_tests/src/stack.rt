//! Stacks that were saved.

use std::test::*;
use vm_stack::is_chain;

// The bytes of two frames, the first with three locals of one byte, a stub on top of each.
const TWO: [u8; 60] = [
    0, 0, 0, 16, 0, 0, 0, 12, 1, 3, 0, 0, 9, 8, 7, 0, // the frame at 0
    0, 0, 0, 3, 0, 0, 0, 0, 0, 0, 0, 77, 0, 0, 0, 0, // its stub
    0, 0, 0, 12, 0, 0, 0, 12, 0, 0, 0, 0, // the frame at 32
    0, 0, 0, 0, 0, 0, 0, 0, 0, 0, 0, 78, 0, 0, 0, 32, // its stub
];

// Whether the two frames with one byte changed are a chain.
fn with_byte(at: usize, value: u8) -> bool {
    let mut bytes = TWO;
    if at < 60 {
        bytes[at] = value;
    }
    is_chain(&bytes)
}

// Whether they are one, or none, with each of these bytes.
fn with_each(changes: &[(usize, u8)], is: bool) -> bool {
    for (at, value) in changes {
        if with_byte(*at, *value) != is {
            return false;
        }
    }
    true
}

// Whether so many of their bytes are one, or none.
fn cut_to_each(rows: &[(usize, bool)]) -> bool {
    for (length, is) in rows {
        match TWO.get(..*length) {
            Some(front) if is_chain(front) == *is => {}
            _ => return false,
        }
    }
    true
}

// Locals, their padding, DestType, the padding of a head, and a FramePtr that makes all from 16 on
// values of one frame.
const FREE: &[(usize, u8)] = &[(13, 5), (15, 1), (19, 9), (42, 1), (59, 0)];

// FramePtr, FrameLen, LocalsPos, a local's type, their count, the pair 0,0.
const BOUND: &[(usize, u8)] = &[
    (59, 31),
    (31, 32),
    (3, 12),
    (7, 16),
    (8, 3),
    (9, 5),
    (10, 2),
    (11, 1),
];

const LENGTHS: &[(usize, bool)] = &[
    (60, true),
    (56, false),
    (44, true),
    (32, true),
    (28, false),
    (0, false),
];

#[test]
fn saved_frames_are_told_from_other_bytes(rt: HostRuntime) {
    assert!(rt; with_each(FREE, true));
    assert!(rt; with_each(BOUND, false));
    assert!(rt; cut_to_each(LENGTHS));
}
