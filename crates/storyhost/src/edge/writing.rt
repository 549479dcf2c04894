//! A sink over a writer of std.
ghost use Rattle.std.specs.Prelude.{◌≡◌, None};

use line_talk::{Put, Sink};
use std::io::Write;

/// A sink over a writer. Each error counts as a fault, and so does a write that takes nothing.
#[derive(Drop)]
pub struct Writing<W: Write + Drop> {
    inner: W,
    faults: u64,
}

impl<W: Write + Drop> Writing<W> {
    pub fn new(inner: W) -> Writing<W>
        ensures { result.faults ≡ 0 }
    {
        Writing { inner, faults: 0 }
    }
}

impl<W: Write + Drop> Sink for Writing<W> {
    ghost sink = { λ s. record { held = W.contents s.inner; faults = s.faults } };

    ghost failing_writes = { λ _. None };

    ghost Beside = { Unit {0} };

    ghost beside = { λ _. tt };

    fn write(&mut self, piece: &[u8]) -> Put {
        if piece.is_empty() {
            return Put::Took(0);
        }
        match self.inner.write(piece) {
            Ok(count) if count > 0 => Put::Took(count),
            _ => {
                self.faults = self.faults.saturating_add(1);
                Put::Failed
            }
        }
    }
}
