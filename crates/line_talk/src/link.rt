//! A source and a sink in one value.
ghost use Rattle.std.specs.Prelude.{◌≡◌};

use crate::sink::Sink;
use crate::source::Source;

/// A source and a sink in one value, with one count of faults for each side.
pub trait Link: Source + Sink {
    /// What neither a read nor a write changes: the references that it holds.
    ghost Lent: { Type 0 };

    ghost lent: { Self → Lent };

    /// A read leaves the sink alone.
    ghost read_keeps: { (old new : Self) → Self.Source.beside new ≡ Self.Source.beside old
        → (Self.sink new ≡ Self.sink old) × (lent new ≡ lent old) };

    /// A write leaves the source alone.
    ghost write_keeps: { (old new : Self) → Self.Sink.beside new ≡ Self.Sink.beside old
        → (Self.source new ≡ Self.source old) × (lent new ≡ lent old) };
}
