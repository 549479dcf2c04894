//! Laws of a world's bytes.

ghost use Rattle.story_snap.specs.Laws.{GivesBackWorld, WorldsHaveOneSpelling, HasOneWorld};

/// The fields of a valid world make that world again.
pub fn gives_back()
    ensures { GivesBackWorld }
{}

/// No two worlds of a story have the same bytes.
pub fn has_one_world()
    ensures { HasOneWorld }
{}

/// No world of a story has two spellings.
pub fn has_one_spelling()
    ensures { WorldsHaveOneSpelling }
{}
