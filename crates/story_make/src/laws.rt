//! Laws of scripts (own).

ghost use Rattle.story_make.specs.Laws.{IsReadAsRequests, HasALineEachTurn, TakesAWordATurn};
ghost use Rattle.story_make.specs.Laws.{AsksInOrder};

/// The bytes of a script, cut into lines, are read as its requests.
pub fn is_read_as_requests()
    ensures { IsReadAsRequests }
{}

/// A script has a line that opens its session, and one for each turn.
pub fn has_a_line_each_turn()
    ensures { HasALineEachTurn }
{}

/// The k-th turn takes the k-th word of the generator.
pub fn takes_a_word_a_turn()
    ensures { TakesAWordATurn }
{}

/// Behind the first line, each is the line before again, the next command, or one that leaves out
/// the next command's number.
pub fn asks_in_order()
    ensures { AsksInOrder }
{}
