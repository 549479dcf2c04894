//! Moments of a host at which a test may hold a thread (own).
ghost use Rattle.turn_cell.specs.Passes.{IsInTurn};

use turn_cell::{Pass, Told};

/// What is told of two moments of each answered line. A thread that it holds waits there. Only
/// `work`, where threads share it, asks for `Sync`.
pub trait Pause {
    /// The session's turn is this pass's, and the reply is known, or, of a spectator's line, the
    /// commands are copied.
    fn in_turn<T: Told>(&self, session: u8, pass: &Pass<T>)
        requires inside { IsInTurn pass.now };

    /// The reply is about to be written on the link of this number.
    fn before_reply(&self, link: u32);
}

/// It holds nobody.
#[derive(Clone, Copy, Debug)]
pub struct NoPause;

impl Pause for NoPause {
    fn in_turn<T: Told>(&self, _session: u8, _pass: &Pass<T>) {}

    fn before_reply(&self, _link: u32) {}
}
