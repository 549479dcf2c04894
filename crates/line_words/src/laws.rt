//! Laws of request lines (own).

ghost use Rattle.line_words.specs.Laws.{ReadsEachRequest, ReadsRequestsOnly, PrintsSpellings};
ghost use Rattle.line_words.specs.Laws.{ReadsEachPlay, ReadsPlaysOnly};

/// Each line that spells a request is read as that request.
pub fn reads_each_request()
    ensures { ReadsEachRequest }
{}

/// A line that is read as a request spells it.
pub fn reads_requests_only()
    ensures { ReadsRequestsOnly }
{}

/// What is printed for a request spells it.
pub fn prints_spellings()
    ensures { PrintsSpellings }
{}

/// Each line that spells an input of `run` is read as that input.
pub fn reads_each_play()
    ensures { ReadsEachPlay }
{}

/// A line that is read as an input of `run` spells it.
pub fn reads_plays_only()
    ensures { ReadsPlaysOnly }
{}
