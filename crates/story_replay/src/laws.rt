//! Laws of transcripts (own).

ghost use Rattle.story_replay.specs.Laws.{HoldsEachShow};

/// The show by which a session answered an accepted command stands in the transcript of the
/// journal, in the session's game, with its number.
pub fn holds_each_show()
    ensures { HoldsEachShow }
{}
