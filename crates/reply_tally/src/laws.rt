//! A line of a show never looks like a refusal (own).

ghost use Rattle.reply_tally.specs.Laws.{ShowsHaveShowLines, RefusalsAreFound};

/// The reply of any turn of a session has show lines, where it is a show.
pub fn shows_have_show_lines()
    ensures { ShowsHaveShowLines }
{}

/// Among the lines of written replies those that begin with `NO ` are the refusals, in their order.
pub fn refusals_are_found()
    ensures { RefusalsAreFound }
{}
