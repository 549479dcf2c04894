//! What is held after the calls of a heap.

use std::test::*;
use vm_heap::{Block, Call, held_after};

#[test]
fn what_is_held_was_handed_out_and_not_freed(rt: HostRuntime) -> Result<(), Fail> {
    let calls = [
        Call::Malloc(4),
        Call::Malloc(0),
        Call::Malloc(4),
        Call::Free(0x100),
        Call::Free(0x100),
        Call::Malloc(2),
    ];
    let held = held_after(rt.alloc(), &calls, 0x100)?;
    let want = [
        Block {
            at: 0x104,
            length: 4,
        },
        Block {
            at: 0x100,
            length: 2,
        },
    ];
    assert!(rt; held.as_slice() == want.as_slice());
    Ok(())
}
