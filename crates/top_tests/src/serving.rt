//! Runs of `serve` at doors in memory.

use crate::runs::{PLAIN, Run, first_unwanted};
use std::alloc::AllocError;

#[test]
fn a_shut_door_and_one_that_is_not_given_have_their_statuses(
    rt: HostRuntime,
) -> Result<(), AllocError> {
    let shut = Run {
        command: &["serve", "d", "0", "2", "--links", "1"],
        text: &[],
        ..PLAIN
    };
    let failed = Run {
        doors: &[0],
        status: 9,
        ..shut
    };
    assert_eq!(rt; first_unwanted(&rt, rt.alloc(), &[shut, failed])?, None);
    Ok(())
}
