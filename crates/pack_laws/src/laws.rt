//! Laws of sessions over a packed journal (own).

ghost use Rattle.pack_laws.specs.Laws.{AnswersAsUnused, AnswersInUse, KeepsGames};

/// In a packed journal a session in use has its game, and a free one nothing.
pub fn keeps_games()
    ensures { KeepsGames }
{}

/// A session in use answers each request as before, however it goes on, unless it was refused for too
/// many commands.
pub fn answers_in_use()
    ensures { AnswersInUse }
{}

/// A free one answers each request as a number that was never used, however it goes on.
pub fn answers_as_unused()
    ensures { AnswersAsUnused }
{}
