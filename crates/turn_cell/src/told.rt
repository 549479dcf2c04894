//! What a value has to tell of itself to lie in a cell.
ghost use Rattle.std.specs.Prelude.{◌≡◌, ℕ, List, length};

/// A value that stands for a list of entries, each with the number of the pass that made it.
pub trait Told {
    type Entry;

    /// Plain data that proofs alone see. It stays as it was when the cell was made.
    ghost Tag: { Type 0 };

    /// The entries, oldest first.
    ghost entries: { Self → List Self.Entry };

    /// The number of the pass with which an entry was made.
    ghost by: { Self.Entry → ℕ };

    ghost tag: { Self → Tag };

    /// How many entries there are.
    fn count(&self) -> u64
        ensures { result ≡ length (entries self.now) };
}
