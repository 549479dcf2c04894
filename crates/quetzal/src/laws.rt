//! Laws of the format.

ghost use Rattle.quetzal.specs.Laws.{ReadsBlocksInAnyOrder, ReadsFirstOfEachName, RestoresPieces};
ghost use Rattle.quetzal.specs.Laws.{TakesStacksOfFrames};
ghost use Rattle.quetzal.specs.Printing.{ReadsWhatIsPrinted};
ghost use Rattle.quetzal.specs.Returns.{GivesStateBack};
ghost use Rattle.vm_undo.specs.Runs.{RestoresWhatIsWritten};

/// The differences that are coded are those that are restored.
pub fn restores_what_is_written()
    ensures { RestoresWhatIsWritten }
{}

/// A form that is printed is read as the chunks that it was made of.
pub fn reads_what_is_printed()
    ensures { ReadsWhatIsPrinted }
{}

/// Bytes that spell chunks one after the other are read as the first of each name.
pub fn reads_first_of_each_name()
    ensures { ReadsFirstOfEachName }
{}

/// Bytes that stay and bytes that change, piece by piece, are what their coding restores.
pub fn restores_pieces()
    ensures { RestoresPieces }
{}

/// The stacks that are taken are frames with a stub on top, which the story's stack holds.
pub fn takes_stacks_of_frames()
    ensures { TakesStacksOfFrames }
{}

/// A heap is read of its blocks in whichever order they are listed, and no other heap is.
pub fn reads_blocks_in_any_order()
    ensures { ReadsBlocksInAnyOrder }
{}

/// A story's state is the one that its save spells.
pub fn gives_state_back()
    ensures { GivesStateBack }
{}
