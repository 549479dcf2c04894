//! What a packed journal keeps (own).

ghost use Rattle.journal_pack.specs.Laws.{AreSinceOpen, IsRebuilt, IsSpelled, KeepsMoves};

/// The live rows, each at its new place, are rows that a journal may have.
pub fn is_rebuilt()
    ensures { IsRebuilt }
{}

/// A packed journal has the sessions and the commands of the live rows, in their order.
pub fn keeps_moves()
    ensures { KeepsMoves }
{}

/// The bytes of a packed journal spell its rows, and its closing gate is 0.
pub fn is_spelled()
    ensures { IsSpelled }
{}

/// The live rows are those of sessions in use at their last OPEN row or behind it.
pub fn are_since_open()
    ensures { AreSinceOpen }
{}
