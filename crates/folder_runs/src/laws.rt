//! What runs one after the other keep (own).

ghost use Rattle.folder_runs.specs.Runs.{NextRunBegins, NextRunGoesOn, RunsCompose};

/// From a sound folder, after any number of runs and stops: the journal spells one list of rows and
/// is refused for none of its bytes, and each show that was given is the story's, run alone on commands with which its session begins.
pub fn runs_compose()
    ensures { RunsCompose }
{}

/// What a run finds of each session: the commands that the run before it found and accepted, in
/// their order, and at most one more, whose append had begun.
pub fn next_run_begins()
    ensures { NextRunBegins }
{}

/// With the commands of each show that the run before it gave the sessions of the next one begin.
pub fn next_run_goes_on()
    ensures { NextRunGoesOn }
{}
