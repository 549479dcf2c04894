//! Streams that were handed on with the wish that no call waits.
ghost use Rattle.std.specs.Io.{ReadsAtMost, WritesAtMost};
ghost use Rattle.std.specs.Io.KnownBytes.{ReadConsumes, WriteAppends};

use super::patience::pause;
use std::io::{self, ErrorKind, Read, Write};
use std::time::Clock;

/// A reader or a writer of which each call is made again until it is served, where it would have
/// had to wait.
#[derive(Drop)]
pub struct Waiting<'c, T, C> {
    inner: T,
    clock: &'c C,
}

impl<'c, T, C> Waiting<'c, T, C> {
    pub fn new(inner: T, clock: &'c C) -> Waiting<'c, T, C> {
        Waiting { inner, clock }
    }
}

impl<'c, T: Read, C: Clock> Read for Waiting<'c, T, C> {
    ghost remaining = { λ w. T.remaining w.inner };

    fn read(&mut self, into: &mut [u8]) -> io::Result<usize> {
        for _ in 0..u64::MAX {
            match self.inner.read(into) {
                Err(error) if error.kind() == ErrorKind::WouldBlock => pause(self.clock),
                answer => return answer,
            }
        }
        Err(ErrorKind::WouldBlock.into())
    }
}

impl<'c, T: Write, C: Clock> Write for Waiting<'c, T, C> {
    ghost contents = { λ w. T.contents w.inner };

    fn write(&mut self, piece: &[u8]) -> io::Result<usize> {
        for _ in 0..u64::MAX {
            match self.inner.write(piece) {
                Err(error) if error.kind() == ErrorKind::WouldBlock => pause(self.clock),
                answer => return answer,
            }
        }
        Err(ErrorKind::WouldBlock.into())
    }

    fn flush(&mut self) -> io::Result<()> {
        self.inner.flush()
    }
}
