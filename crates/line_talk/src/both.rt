//! A link of a source and a sink that were lent.
ghost use Rattle.std.specs.Prelude.{◌≡◌, ◌<◌, ℕ, length, false};
ghost use Rattle.std.specs.Borrow.{MutBor};
ghost use Rattle.line_talk.specs.Causes.{Rose};
ghost use Rattle.line_talk.specs.Talked.{Talked};

use crate::answers::Answers;
use crate::ended::Ended;
use crate::link::Link;
use crate::sink::{Put, Sink};
use crate::source::{Got, Source};
use crate::talk::converse;
use std::alloc::Global;

/// A link of a source and a sink that were lent.
#[derive(Drop)]
pub struct Both<'a, S, K> {
    pub source: &'a mut S,
    pub sink: &'a mut K,
}

impl<'a, S: Source, K: Sink> Source for Both<'a, S, K> {
    ghost source = { λ b. S.source b.source.now };

    ghost failing_reads = { λ b. S.failing_reads b.source.now };

    ghost Beside = { ℕ × MutBor K };

    ghost beside = { λ b. (b.source.ghost_name, b.sink) };

    fn read(&mut self, into: &mut [u8]) -> Got {
        self.source.read(into)
    }
}

impl<'a, S: Source, K: Sink> Sink for Both<'a, S, K> {
    ghost sink = { λ b. K.sink b.sink.now };

    ghost failing_writes = { λ b. K.failing_writes b.sink.now };

    ghost Beside = { ℕ × MutBor S };

    ghost beside = { λ b. (b.sink.ghost_name, b.source) };

    fn write(&mut self, piece: &[u8]) -> Put {
        self.sink.write(piece)
    }
}

impl<'a, S: Source, K: Sink> Link for Both<'a, S, K> {
    ghost use Rattle.std.proofs.Common.{ap};

    ghost Lent = { ℕ × ℕ };

    ghost lent = { λ b. (b.source.ghost_name, b.sink.ghost_name) };

    ghost read_keeps = { λ old new same.
        (ap (λ p. K.sink p.1.now) same, ap (λ p. (p.0, p.1.ghost_name)) same) };

    ghost write_keeps = { λ old new same.
        (ap (λ p. S.source p.1.now) same, ap (λ p. (p.1.ghost_name, p.0)) same) };
}

/// A conversation over a source and a sink that were lent.
pub fn converse_between<A: Answers, S: Source, K: Sink>(
    alloc: Global,
    speaker: &mut A,
    source: &mut S,
    sink: &mut K,
    buffer: &mut [u8],
) -> Ended
    requires going { A.over (A.state speaker.old) ≡ false }
    requires invariant { A.invariant speaker.old }
    requires buffer { 0 < length buffer.old }
    ensures value { Talked A.turn A.cut A.over (A.state speaker.old) (A.state speaker.new)
        (S.source source.old) (S.source source.new) (K.sink sink.old) (K.sink sink.new) result }
    ensures ended { ¬ (result ≡ Ended.End)
        → (S.source source.new).ended ≡ (S.source source.old).ended }
    ensures read_fault { result ≡ Ended.ReadFault
        → Rose (S.source source.old).faults (S.source source.new).faults }
    ensures write_fault { result ≡ Ended.WriteFault
        → Rose (K.sink sink.old).faults (K.sink sink.new).faults }
    ensures invariant { A.invariant speaker.new }
    ensures lent { A.lent speaker.new ≡ A.lent speaker.old }
{
    let mut link = Both { source, sink };
    converse(alloc, speaker, &mut link, buffer)
}
