//! A link in memory, with the calls that are to fail.

use crate::link::Link;
use crate::memory::{MemorySink, MemorySource};
use crate::sink::{Put, Sink};
use crate::source::{Got, Source};

/// A link of a source and a sink in memory.
#[derive(Drop)]
pub struct MemoryLink {
    pub source: MemorySource,
    pub sink: MemorySink,
}

impl Source for MemoryLink {
    ghost use Rattle.line_talk.specs.Streams.{SinkState};

    ghost source = { λ l. ⟦<MemorySource as Source>⟧.source l.source };

    ghost failing_reads = { λ l. ⟦<MemorySource as Source>⟧.failing_reads l.source };

    ghost Beside = { SinkState };

    ghost beside = { λ l. ⟦<MemorySink as Sink>⟧.sink l.sink };

    fn read(&mut self, into: &mut [u8]) -> Got {
        self.source.read(into)
    }
}

impl Sink for MemoryLink {
    ghost use Rattle.line_talk.specs.Streams.{SourceState};

    ghost sink = { λ l. ⟦<MemorySink as Sink>⟧.sink l.sink };

    ghost failing_writes = { λ l. ⟦<MemorySink as Sink>⟧.failing_writes l.sink };

    ghost Beside = { SourceState };

    ghost beside = { λ l. ⟦<MemorySource as Source>⟧.source l.source };

    fn write(&mut self, piece: &[u8]) -> Put {
        self.sink.write(piece)
    }
}

impl Link for MemoryLink {
    ghost Lent = { Unit {0} };

    ghost lent = { λ _. tt };

    ghost read_keeps = { λ old new same. (same, λ i. tt) };

    ghost write_keeps = { λ old new same. (same, λ i. tt) };
}
