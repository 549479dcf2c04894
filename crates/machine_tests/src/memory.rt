use std::alloc::{AllocError, Global};
use std::test::Fail;
use vm_memory::{MAX_SIZE, Memory};

const FILE: [u8; 256] = [7; 256];

// Copies of memory, 16,384 of them.
fn copies_of<'i>(alloc: Global, memory: &Memory<'i>) -> Result<Vec<Memory<'i>>, AllocError> {
    let mut copies = Vec::new(alloc);
    for _ in 0..16_384 {
        copies.push(memory.copy_of(alloc)?)?;
    }
    Ok(copies)
}

// Whether each has one page of its own, in which the 1 stands.
fn are_whole(copies: &[Memory<'_>]) -> bool {
    for copy in copies {
        if copy.own_pages() != 1 || copy.read4(0x1_0000) != Ok(1) {
            return false;
        }
    }
    true
}

// Whether all copies of the largest memory with a 1 in it are whole.
fn are_held_at_once(alloc: Global) -> Result<bool, AllocError> {
    let mut memory = Memory::new(alloc, &FILE, 256, MAX_SIZE)?;
    if memory.write4(0x1_0000, 1).is_err() {
        return Ok(false);
    }
    let copies = copies_of(alloc, &memory)?;
    Ok(are_whole(&copies))
}

// Whole copies would take 256 GiB.
#[test]
fn many_copies_of_a_large_memory_are_held_at_once(rt: HostRuntime) -> Result<(), Fail> {
    assert!(rt; are_held_at_once(rt.alloc())?);
    Ok(())
}
