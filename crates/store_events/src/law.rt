//! Laws of a session's snapshot file, over every order of events (own).

ghost use Rattle.std.specs.Prelude.{List};
ghost use Rattle.story_run.specs.declared.story.Story.{Story};
ghost use Rattle.store_events.specs.Laws.{StaysInAgreement, StaysOpen, StaysSteady, WarmsInSixteen};
ghost use Rattle.store_events.specs.Rows.{BeginsByRows, RowsAreTold};

/// Whatever happens, what is known of the gates holds in each image that a stop may leave.
pub fn stays_steady()
    ensures { StaysSteady }
{}

/// An area that is known to be open stays so, or a newer one of its OPEN row is.
pub fn stays_open()
    ensures { StaysOpen }
{}

/// Whatever happens to a session, each image of its file agrees with its rows and commands.
pub fn stays_in_agreement()
    ensures { (stories : List Story) → StaysInAgreement stories }
{}

/// A session that misses no snapshot warms in at most 16 turns.
pub fn warms_in_sixteen()
    ensures { (stories : List Story) → WarmsInSixteen stories }
{}

/// A row more of the journal is a command more or a new OPEN of its session, and nothing to others.
pub fn rows_are_told()
    ensures { RowsAreTold }
{}

/// Over a file that agrees with a journal's rows a session begins in agreement.
pub fn begins_by_rows()
    ensures { BeginsByRows }
{}
