//! Laws of sessions (own).

ghost use Rattle.session_core.specs.Isolation.{IsIsolated};
ghost use Rattle.session_core.specs.Repeats.{RepeatsChangeNothing};
ghost use Rattle.session_core.specs.Worlds.{AnswersAlike, DecidesAlike, TurnsAlike};

/// A session gets the replies that it would get with all lines of other sessions left out.
pub fn is_isolated()
    ensures { IsIsolated }
{}

/// A request that was accepted, given again right after, gets the same reply and changes nothing.
pub fn repeats_change_nothing()
    ensures { RepeatsChangeNothing }
{}

/// A session whose world is the one of its game answers a request as one that is played from the
/// start.
pub fn answers_alike()
    ensures { AnswersAlike }
{}

/// So it does a line.
pub fn decides_alike()
    ensures { DecidesAlike }
{}

/// And its turns are the same.
pub fn turns_alike()
    ensures { TurnsAlike }
{}
