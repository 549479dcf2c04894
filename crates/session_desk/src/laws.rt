//! Laws of desks (own).

ghost use Rattle.session_desk.specs.Laws.{BeginningsStayAgreed};
ghost use Rattle.session_desk.specs.Laws.{RefusesAlike, ShowsAgain, ShowsFresh, IsColdAlone};
ghost use Rattle.session_desk.specs.Laws.{JournalsFit, ReadsInRange, StaysWarm, WorldIsNeeded};

/// A desk refuses what its session, played from the start, refuses, for the same cause.
pub fn refuses_alike()
    ensures { RefusesAlike }
{}

/// Where a request comes again, the last show is the session's reply, and nothing is accepted.
pub fn shows_again()
    ensures { ShowsAgain }
{}

/// Where a request is fresh, the session accepts the command that it asks for, and its reply is the
/// last show of the desk once that command was committed.
pub fn shows_fresh()
    ensures { ShowsFresh }
{}

/// A desk is cold to a request exactly where the answer needs the world and it isn't held.
pub fn is_cold_alone()
    ensures { IsColdAlone }
{}

/// The answers for which a world is needed are those that a world decides: all others are the same
/// by every world.
pub fn world_is_needed()
    ensures { WorldIsNeeded }
{}

/// A desk that a request finds cold isn't cold once it was warmed; nor is one with the command of a
/// fresh request, once that was run; nor one that gives a request its last show again.
pub fn stays_warm()
    ensures { StaysWarm }
{}

/// A journal has at most 8,192 rows of each session, as many as a desk takes.
pub fn journals_fit()
    ensures { JournalsFit }
{}

/// What a line spells may be committed, with the budget that it is read with or that of a host.
pub fn reads_in_range()
    ensures { ReadsInRange }
{}

/// Rows that come later leave a snapshot file in agreement, so what a stop leaves of it agrees with
/// the journal of then.
pub fn beginnings_stay_agreed()
    ensures { BeginningsStayAgreed }
{}
