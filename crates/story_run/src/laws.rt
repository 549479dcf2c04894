//! Laws of turns.

ghost use Rattle.story_run.specs.Laws.{BudgetsOnlyEnd, FaultsAreNumbered, GlkStaysValid};
ghost use Rattle.story_run.specs.Laws.{OverWantsNothing, TurnsEnd, UnwantedLeaves};

/// A turn ends within its budget: each of its steps takes a tick at least.
pub fn turns_end()
    ensures { TurnsEnd }
{}

/// A turn that keeps its budget is the same under any greater one.
pub fn budgets_only_end()
    ensures { BudgetsOnlyEnd }
{}

/// A story that is over wants nothing.
pub fn over_wants_nothing()
    ensures { OverWantsNothing }
{}

/// An input that isn't wanted leaves the world as it is.
pub fn unwanted_leaves()
    ensures { UnwantedLeaves }
{}

/// The Glk state stays valid through each turn, and waits with what the story waits for.
pub fn glk_stays_valid()
    ensures { GlkStaysValid }
{}

/// A story that ends with a fault ends with a number from 1 to 24.
pub fn faults_are_numbered()
    ensures { FaultsAreNumbered }
{}
