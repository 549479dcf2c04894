//! Where bytes come from.
ghost use Rattle.std.specs.Prelude.{◌≡◌, ◌<◌, ◌||◌, length, false, Option};

/// What a source answers to a read.
#[derive(Clone, Copy, Debug, PartialEq, Eq)]
pub enum Got {
    /// So many bytes, at least one.
    Bytes(usize),
    /// No more bytes come.
    End,
    /// The read failed, and no byte was given.
    Failed,
}

/// A source of bytes.
pub trait Source {
    ghost use Rattle.std.specs.Io.KnownBytes.{IsAtEnd};
    ghost use Rattle.line_talk.specs.Causes.{Rose};
    ghost use Rattle.line_talk.specs.Failing.{Failing, FailsAsListed};
    ghost use Rattle.line_talk.specs.Streams.{SourceState, bytes_got, is_end, is_failed};
    ghost use Rattle.line_talk.specs.Streams.{IsCountWithin, Gave};

    /// What is known of it. The fault count never falls.
    ghost source: { Self → SourceState };

    /// Its reads that are to fail, where it tells them.
    ghost failing_reads: { Self → Option Failing };

    /// What a read leaves alone: of a link, its other side.
    ghost Beside: { Type 0 };

    ghost beside: { Self → Beside };

    /// Reads bytes into the front of the buffer.
    fn read(&mut self, into: &mut [u8]) -> Got
        requires { 0 < length into.old }
        ensures within { IsCountWithin result (length into.new) }
        ensures value { Gave (source self.old) (source self.new) (bytes_got result into.new) }
        ensures at_end { result ≡ Got.End → IsAtEnd (source self.new).left }
        ensures ended { (source self.new).ended ≡ ((source self.old).ended || is_end result) }
        ensures listed { FailsAsListed (failing_reads self.old) (failing_reads self.new) false
            (is_failed result) }
        ensures beside { beside self.new ≡ beside self.old }
        ensures cause { result ≡ Got.Failed
            → Rose (source self.old).faults (source self.new).faults };
}
