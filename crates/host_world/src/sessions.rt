//! The sessions of a host (own).

ghost use Rattle.std.specs.Prelude.{◌≡◌, Some, None, MatchOption, is_some, map};
ghost use Rattle.std.specs.List.{slice_get};
ghost use Rattle.host_world.specs.Sessions.{phase_in, phase_of, phase_set, ready_reply};
ghost use Rattle.host_world.specs.Sessions.{turn_ended, without_turn};

use crate::turn::{Phase, Session, Turn};
use line_words::Reply;

/// How far the turn of a session has come, if it has one.
pub fn phase_of(sessions: &[Session], s: u8) -> Option<&Phase>
    ensures { MatchOption result (phase_of (slice_get sessions.now s) ≡ None)
        (λ phase. phase_of (slice_get sessions.now s) ≡ Some phase.now) }
{
    match sessions.get(s as usize) {
        None => None,
        Some(session) => match &session.turn {
            None => None,
            Some(turn) => Some(&turn.phase),
        },
    }
}

/// The turn of a session goes on to this phase.
#[tactic(auto, using(crate::proofs::SetLemmas::no_turn))]
pub fn set_phase(sessions: &mut Vec<Session>, s: u8, phase: Phase)
    ensures { sessions.new.items
        ≡ phase_set sessions.old.items s phase (slice_get sessions.old.items s) }
{
    if let Some(session) = sessions.get_mut(s as usize) {
        if let Some(turn) = &mut session.turn {
            turn.phase = phase;
        }
    }
}

/// Whether the reply of a session's turn is ready, with its entry taken where it has one.
pub fn has_answer(sessions: &[Session], s: u8) -> bool
    ensures { result ≡ is_some (ready_reply (phase_of (slice_get sessions.now s))) }
{
    matches!(
        phase_of(sessions, s),
        Some(Phase::Taken(_, _) | Phase::Plain(_, _))
    )
}

// That reply.
fn answer_in(turn: Option<Turn>) -> Option<Reply>
    ensures { result ≡ ready_reply (phase_in turn) }
{
    match turn {
        None => None,
        Some(turn) => {
            let Turn { phase, .. } = turn;
            match phase {
                Phase::Taken(_, reply) => Some(reply),
                Phase::Plain(_, reply) => Some(reply),
                _ => None,
            }
        }
    }
}

/// Ends the turn of a session, with the reply that was ready.
pub fn end_turn(sessions: &mut Vec<Session>, s: u8) -> Option<Reply>
    ensures value { result ≡ ready_reply (phase_of (slice_get sessions.old.items s)) }
    ensures kept { sessions.new.items
        ≡ turn_ended sessions.old.items s (slice_get sessions.old.items s) }
{
    match sessions.get_mut(s as usize) {
        None => None,
        Some(session) => answer_in(session.turn.take()),
    }
}

/// No turn stands.
pub fn end_turns(sessions: &mut Vec<Session>)
    ensures { sessions.new.items ≡ map without_turn sessions.old.items }
{
    for at in 0..sessions.len() {
        sessions[at].turn = None;
    }
}
