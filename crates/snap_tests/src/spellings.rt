use snap_fields::{Fields, SnapWaiting, read_fields, write_fields};
use std::alloc::{AllocError, Global};
use std::test::{Fail, *};

/// A story at a select: a pair, a buffer with a line request, a grid with a character request,
/// streams of each kind, a file, a block and an undo state.
const WAITING: [u8; 605] = [
    83, 84, 87, 50, 0, 0, 0, 0, 0, 0, 0, 1, 2, 2, 0, 0, 0, 0, 0, 0, 3, 232, 0, 0, 1, 32, 0, 0, 0,
    0, 0, 0, 0, 7, 0, 0, 2, 0, 0, 9, 1, 0, 0, 0, 16, 0, 1, 2, 3, 4, 5, 6, 7, 8, 9, 10, 11, 12, 13,
    14, 15, 0, 0, 3, 0, 0, 0, 0, 1, 0, 0, 3, 0, 0, 0, 0, 32, 0, 0, 0, 2, 0, 0, 0, 0, 0, 0, 1, 16,
    0, 0, 1, 0, 0, 0, 0, 4, 0, 0, 0, 0, 0, 0, 0, 11, 0, 0, 0, 0, 0, 0, 0, 12, 0, 0, 0, 0, 0, 0, 0,
    13, 0, 0, 0, 0, 0, 0, 0, 1, 0, 0, 0, 1, 0, 0, 0, 4, 70, 79, 82, 77, 0, 0, 0, 1, 7, 0, 0, 3, 0,
    0, 0, 0, 1, 0, 0, 3, 0, 0, 0, 0, 32, 2, 0, 0, 1, 48, 0, 0, 0, 1, 0, 0, 1, 52, 0, 0, 0, 4, 0, 0,
    0, 6, 0, 0, 0, 2, 0, 0, 0, 1, 0, 0, 0, 2, 0, 0, 0, 3, 0, 0, 0, 1, 0, 0, 0, 1, 0, 0, 0, 7, 0, 0,
    0, 0, 0, 0, 0, 0, 0, 0, 0, 0, 0, 0, 0, 1, 0, 0, 0, 0, 0, 0, 0, 0, 0, 0, 0, 0, 0, 0, 0, 2, 0, 0,
    0, 2, 0, 0, 0, 18, 0, 0, 0, 1, 0, 0, 0, 3, 0, 0, 0, 2, 0, 0, 0, 3, 0, 0, 0, 0, 2, 0, 0, 0, 3,
    0, 0, 0, 7, 0, 0, 0, 2, 0, 0, 0, 4, 0, 0, 0, 1, 0, 0, 0, 1, 0, 0, 0, 1, 255, 255, 255, 239, 0,
    0, 0, 0, 0, 0, 0, 1, 0, 0, 0, 2, 0, 0, 0, 1, 1, 0, 0, 0, 1, 64, 0, 0, 0, 16, 0, 0, 0, 0, 1, 0,
    0, 0, 1, 255, 255, 255, 239, 0, 0, 0, 3, 0, 0, 0, 4, 0, 0, 0, 7, 0, 0, 0, 3, 0, 0, 0, 0, 0, 0,
    0, 1, 0, 0, 0, 0, 0, 0, 0, 0, 0, 0, 0, 0, 0, 0, 0, 0, 0, 0, 0, 2, 0, 0, 0, 1, 0, 0, 0, 1, 0, 0,
    0, 0, 0, 0, 0, 72, 0, 0, 0, 105, 2, 1, 0, 0, 0, 4, 0, 0, 0, 2, 0, 0, 0, 0, 9, 0, 0, 0, 1, 0, 0,
    0, 0, 0, 0, 0, 0, 0, 0, 0, 5, 0, 0, 0, 0, 0, 0, 0, 0, 3, 0, 0, 0, 0, 9, 0, 0, 0, 1, 0, 0, 0, 0,
    0, 0, 0, 0, 0, 0, 0, 5, 0, 0, 0, 0, 0, 0, 0, 0, 4, 2, 0, 0, 0, 9, 0, 0, 0, 5, 0, 0, 0, 0, 0, 0,
    0, 0, 0, 0, 0, 5, 0, 0, 0, 2, 0, 0, 0, 0, 1, 0, 0, 0, 1, 0, 0, 0, 97, 0, 0, 0, 5, 1, 0, 0, 0,
    9, 0, 0, 0, 3, 0, 0, 0, 0, 0, 0, 0, 0, 0, 0, 0, 5, 0, 0, 0, 4, 1, 0, 0, 1, 128, 0, 0, 0, 8, 0,
    0, 0, 1, 0, 0, 0, 1, 0, 0, 0, 1, 0, 0, 0, 0, 0, 0, 0, 1, 0, 0, 0, 97, 0, 0, 0, 1, 0, 0, 0, 1,
    0, 0, 0, 1, 0, 0, 0, 97, 0, 0, 0, 2, 120, 121, 0, 0, 0, 2, 46, 10,
];

// A function of its own, whose callers know no byte of them.
fn waiting(alloc: Global) -> Result<Vec<u8>, AllocError> {
    Vec::from_slice(alloc, &WAITING)
}

// Whether these bytes are what is written of the fields.
fn are_written(alloc: Global, fields: &Fields, bytes: &[u8]) -> Result<bool, AllocError> {
    match write_fields(alloc, fields)? {
        Some(again) => Ok(again.as_slice() == bytes),
        None => Ok(false),
    }
}

// Whether they are those of the fields that are read.
fn are_written_again(alloc: Global, bytes: &[u8]) -> Result<bool, AllocError> {
    match read_fields(alloc, bytes) {
        Ok(fields) => are_written(alloc, &fields, bytes),
        Err(_) => Ok(false),
    }
}

// Whether the bytes are read as fields that pass this check.
fn read_as<F: FnOnce(&Fields) -> bool>(alloc: Global, bytes: &[u8], check: F) -> bool
    requires { F.IsAlwaysCallable check }
{
    match read_fields(alloc, bytes) {
        Ok(fields) => check(&fields),
        Err(_) => false,
    }
}

fn are_of_waiting(fields: &Fields) -> bool {
    let selects = matches!(
        fields.waiting,
        SnapWaiting::Select {
            reference: 0x130,
            ..
        }
    );
    selects
        && fields.random.taken == 13
        && fields.windows.as_slice().len() == 3
        && fields.streams.as_slice().len() == 4
}

#[test]
fn what_is_read_is_written_again(rt: HostRuntime) -> Result<(), Fail> {
    let bytes = waiting(rt.alloc())?;
    assert!(rt; read_as(rt.alloc(), &bytes, are_of_waiting));
    assert!(rt; are_written_again(rt.alloc(), &bytes)?);
    Ok(())
}
