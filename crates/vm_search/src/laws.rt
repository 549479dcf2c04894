//! Laws of searches.

ghost use Rattle.vm_search.specs.Laws.{EndsSoonOrNever, FindsOrFails, MeetsOrMisses};

/// A linear or linked search that answers has found a key that equals, with none before it that
/// does or that ends the search; or there is none up to where the search ends.
pub fn finds_or_fails()
    ensures { FindsOrFails }
{}

/// A binary search that answers has met a key that equals, or has ended where the key would stand:
/// behind a structure whose key is less, and before one whose key is greater. Of sorted structures
/// then none has the key.
pub fn meets_or_misses()
    ensures { MeetsOrMisses }
{}

/// A linear or linked search without an end among 2^32 steps has none later.
pub fn ends_soon_or_never()
    ensures { EndsSoonOrNever }
{}
