//! A door in memory.

use host_serve::{Door, Next, Served};
use line_talk::MemoryLink;
use std::sync::Wait;

/// What a door in memory answers: no link comes.
#[derive(Drop)]
pub struct NoLink(());

/// A door that is shut.
#[derive(Drop)]
pub struct MemoryDoor(());

impl MemoryDoor {
    pub fn new() -> MemoryDoor {
        MemoryDoor(())
    }
}

impl Door for MemoryDoor {
    type Conn = MemoryLink;

    type End = NoLink;

    type Fault = NoLink;

    ghost gives = { λ _ _. ⊥ };

    ghost shuts = { λ _ _. Unit {0} };

    ghost fails = { λ _ _. ⊥ };

    fn next<W: Wait>(&self, _rt: &W) -> Next<MemoryDoor> {
        Next::Shut(NoLink(()))
    }

    fn hang_up<W: Wait>(&self, _rt: &W, _link: MemoryLink, _why: &Served) {}
}
