//! A source over a reader of std.
ghost use Rattle.std.specs.Prelude.{◌≡◌, false, None};

use line_talk::{Got, Source};
use std::io::Read;

/// A source over a reader. Each error counts as a fault.
#[derive(Drop)]
pub struct Reading<R: Read + Drop> {
    inner: R,
    taken: u64,
    ended: bool,
    faults: u64,
}

impl<R: Read + Drop> Reading<R> {
    pub fn new(inner: R) -> Reading<R>
        ensures taken { result.taken ≡ 0 }
        ensures ended { result.ended ≡ false }
        ensures faults { result.faults ≡ 0 }
    {
        Reading {
            inner,
            taken: 0,
            ended: false,
            faults: 0,
        }
    }
}

impl<R: Read + Drop> Source for Reading<R> {
    ghost source = { λ s. record {
      left = R.remaining s.inner;
      taken = s.taken;
      ended = s.ended;
      faults = s.faults;
    } };

    ghost failing_reads = { λ _. None };

    ghost Beside = { Unit {0} };

    ghost beside = { λ _. tt };

    fn read(&mut self, into: &mut [u8]) -> Got {
        match self.inner.read(into) {
            Ok(0) => {
                self.ended = true;
                Got::End
            }
            Ok(count) => {
                self.taken = self.taken.saturating_add(count as u64);
                Got::Bytes(count)
            }
            Err(_) => {
                self.faults = self.faults.saturating_add(1);
                Got::Failed
            }
        }
    }
}
