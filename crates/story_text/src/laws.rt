//! Laws of the escaped spelling (own).

ghost use Rattle.story_text.specs.Laws.{ReadsEachSpelling, ReadsSpellingsOnly, ReadsVisibleOnly};
ghost use Rattle.story_text.specs.Laws.{TextRoundTrip};

/// Each spelling of a text is read as that text.
pub fn reads_each_spelling()
    ensures { ReadsEachSpelling }
{}

/// A word that is read as a text is a spelling of that text.
pub fn reads_spellings_only()
    ensures { ReadsSpellingsOnly }
{}

/// A word that is read has visible bytes alone.
pub fn reads_visible_only()
    ensures { ReadsVisibleOnly }
{}

/// What is written is read again.
pub fn round_trip()
    ensures { TextRoundTrip }
{}
