//! Laws of the contents of memory, and of the limits of undo.

ghost use Rattle.vm_undo.specs.Contents.{GivesContentsBack, GivesMemoryBack, TellsContents};
ghost use Rattle.vm_undo.specs.UndoList.{GivesListBack, HoldsLimits, KeepsTheNewest};

/// Memory is what its contents give.
pub fn gives_memory_back()
    ensures { GivesMemoryBack }
{}

/// Contents are those of the memory that they give.
pub fn gives_contents_back()
    ensures { GivesContentsBack }
{}

/// The test of `is_contents` holds of the contents of memory of an image, and of nothing else.
pub fn tells_contents()
    ensures { TellsContents }
{}

/// After each save both limits hold.
pub fn holds_limits()
    ensures { HoldsLimits }
{}

/// A state that isn't too large is the newest after its save.
pub fn keeps_the_newest()
    ensures { KeepsTheNewest }
{}

/// The states of a list are those of what is kept of them.
pub fn gives_list_back()
    ensures { GivesListBack }
{}
