//! Where bytes go.
ghost use Rattle.std.specs.Prelude.{◌≡◌, length, Option};
ghost use Rattle.line_talk.specs.declared.sink.Stop.TheVariants.{Memory};

use crate::ended::Ended;
use std::alloc::AllocError;

/// What a sink answers to a write.
#[derive(Clone, Copy, Debug, PartialEq, Eq)]
pub enum Put {
    /// It took so many bytes, at least one of a piece that isn't empty.
    Took(usize),
    /// The write failed, and no byte was taken.
    Failed,
}

/// A sink of bytes.
pub trait Sink {
    ghost use Rattle.line_talk.specs.Causes.{Rose};
    ghost use Rattle.line_talk.specs.Failing.{Failing, FailsOrWants};
    ghost use Rattle.line_talk.specs.Streams.{SinkState, part_taken, is_refused, IsTakenWithin};
    ghost use Rattle.line_talk.specs.Streams.{Wrote};

    /// What is known of it. The fault count never falls.
    ghost sink: { Self → SinkState };

    /// Its writes that are to fail, where it tells them.
    ghost failing_writes: { Self → Option Failing };

    /// What a write leaves alone: of a link, its other side.
    ghost Beside: { Type 0 };

    ghost beside: { Self → Beside };

    /// Takes bytes from the front of the piece.
    fn write(&mut self, piece: &[u8]) -> Put
        ensures within { IsTakenWithin result (length piece.now) }
        ensures value { Wrote (sink self.old) (sink self.new) (part_taken result piece.now) }
        ensures listed { FailsOrWants (failing_writes self.old) (failing_writes self.new)
            (is_refused result) }
        ensures beside { beside self.new ≡ beside self.old }
        ensures cause { result ≡ Put.Failed
            → Rose (sink self.old).faults (sink self.new).faults };
}

/// Why a text was not written whole.
#[derive(Clone, Copy, Debug, PartialEq, Eq)]
pub enum Stop {
    Output,
    Memory,
}

impl From<AllocError> for Stop {
    ghost from_gives = { λ _ stop. stop ≡ Memory };

    fn from(_: AllocError) -> Self {
        Stop::Memory
    }
}

impl Stop {
    ghost use Rattle.line_talk.specs.Ends.{ended_by};

    /// How a conversation ends by it.
    pub fn ended(self) -> Ended
        ensures { result ≡ ended_by self }
    {
        match self {
            Stop::Output => Ended::WriteFault,
            Stop::Memory => Ended::NoMemory,
        }
    }
}
