//! The events of a turn that decide: it begins, and its history takes its entry (own).

ghost use Rattle.std.specs.Prelude.{◌≡◌, ◌≤◌, ◌<◌, ℕ, List, Some, IfOk, IfSome, OnOk, OnErr};
ghost use Rattle.std.specs.Prelude.{length};
ghost use Rattle.std.specs.List.{slice_get};
ghost use Rattle.session_core.specs.Turning.{commands_in, decision_on, turn_met};
ghost use Rattle.session_core.specs.declared.entry.Entry.{Entry};
ghost use Rattle.host_world.specs.Sessions.{first_phase, session_turn_begun, with_entry, taken_in};
ghost use Rattle.host_world.specs.Events.{after};
ghost use Rattle.host_world.specs.declared.event.JournalEvent.TheVariants as JournalEvent;
ghost use Rattle.host_world.specs.declared.turn.Session.{Session};
ghost use Rattle.host_world.specs.declared.turn.Turn.{Turn};

use crate::state::JournalHost;
use crate::turn::{Phase, Session, Turn};
use gate_journal::Command;
use line_words::{LineFault, No, Reply, read_request};
use session_core::{Decision, Entry, Outcome, decide, with_budget};
use std::alloc::{AllocError, Global};
use story_run::Story;
use story_text::Bytes;

/// What a session with these commands is answered to a line, and the command that it accepts.
#[tactic(auto, unfolding(session_core::specs::Turning::decision_on))]
pub fn decision_on(
    alloc: Global,
    stories: &[Story],
    budget: u64,
    commands: &[Command],
    line: &[u8],
) -> Result<Decision, AllocError>
    requires { length commands.now ≤ 8192 }
    ensures value { IfOk result (λ decision. decision
        ≡ decision_on stories.now budget commands.now line.now) }
    ensures within { IfOk result (λ decision.
        IfSome decision.accepted (λ _. length commands.now < 8192)) }
{
    let no = match read_request(alloc, line) {
        Ok(request) => {
            return decide(alloc, stories, commands, &with_budget(budget, request));
        }
        Err(LineFault::BadLine) => No::BadLine,
        Err(LineFault::LongLine) => No::LongLine,
        Err(LineFault::NoMemory) => return Err(AllocError),
    };
    Ok(Decision {
        reply: Reply::No(no),
        accepted: None,
    })
}

// The reply of a turn that decided so and met this, and the entry that its history takes.
fn met(decision: Decision, by: u64, outcome: Outcome) -> (Reply, Option<Entry>)
    ensures { (history : List Entry)
        → turn_met history by decision.reply decision.accepted outcome
        ≡ record { reply = result.0; history = with_entry history result.1 } }
{
    let Decision { reply, accepted } = decision;
    let Some(command) = accepted else {
        return match outcome {
            Outcome::OutOfMemory => (Reply::No(No::NoMemory), None),
            _ => (reply, None),
        };
    };
    match outcome {
        Outcome::OutOfMemory => (Reply::No(No::NoMemory), None),
        Outcome::Answered => (reply, Some(Entry::Accepted { by, command })),
        Outcome::DiskFailed { from, to } => (
            Reply::No(No::DiskFault { from, to }),
            Some(Entry::Faulted { by, from, to }),
        ),
        Outcome::Forgotten => (
            Reply::No(No::NoMemory),
            Some(Entry::Accepted { by, command }),
        ),
    }
}

// A session takes this entry, and its turn goes on to this phase.
fn take_entry(
    sessions: &mut Vec<Session>,
    s: u8,
    entry: Option<Entry>,
    phase: Phase,
) -> Result<(), AllocError>
    requires { (x : Session) → slice_get sessions.old.items s ≡ Some x
        → length (commands_in (with_entry x.history entry)) ≤ 8192 }
    ensures { OnOk result (sessions.new.items
        ≡ taken_in sessions.old.items s entry phase (slice_get sessions.old.items s)) }
{
    if let Some(session) = sessions.get_mut(s as usize) {
        session.history.take(entry)?;
        if let Some(turn) = &mut session.turn {
            turn.phase = phase;
        }
    }
    Ok(())
}

// Where no command would be accepted the reply is ready.
fn first_phase(decision: Decision) -> Phase
    ensures { result ≡ first_phase decision.reply decision.accepted }
{
    let Decision { reply, accepted } = decision;
    match accepted {
        Some(_) => Phase::Asked,
        None => Phase::Plain(Outcome::Answered, reply),
    }
}

fn begin_turn(sessions: &mut Vec<Session>, s: u8, turn: Turn)
    ensures { sessions.new.items
        ≡ session_turn_begun sessions.old.items s turn (slice_get sessions.old.items s) }
{
    if let Some(session) = sessions.get_mut(s as usize) {
        session.turn = Some(turn);
    }
}

impl JournalHost {
    /// A session without a turn begins one, by the pass of this number with this line, given
    /// without its LF. Where memory runs out nothing has changed.
    pub(crate) fn take(
        &mut self,
        alloc: Global,
        stories: &[Story],
        budget: u64,
        s: u8,
        pass: u64,
        line: &Bytes,
    ) -> Result<(), AllocError>
        ensures ok { OnOk result (self.new
            ≡ after stories.now budget self.old (JournalEvent.Take s pass line.now)) }
        ensures err { OnErr result (self.new ≡ self.old) }
    {
        if !self.up {
            return Ok(());
        }
        let Some(session) = self.sessions.list.get(s as usize) else {
            return Ok(());
        };
        if session.turn.is_some() {
            return Ok(());
        }
        let commands = session.history.commands(alloc)?;
        let decision = decision_on(alloc, stories, budget, &commands, line.as_slice())?;
        let turn = Turn {
            pass,
            line: line.copy_of(alloc)?,
            phase: first_phase(decision),
        };
        begin_turn(&mut self.sessions.list, s, turn);
        Ok(())
    }

    // The history of a session takes this entry, and its turn goes on to this phase.
    fn take_entry(&mut self, s: u8, entry: Option<Entry>, phase: Phase) -> Result<(), AllocError>
        requires { (x : Session) → slice_get self.old.sessions s ≡ Some x
            → length (commands_in (with_entry x.history entry)) ≤ 8192 }
        ensures { OnOk result (self.new ≡ record self.old {
          sessions = taken_in self.old.sessions s entry phase (slice_get self.old.sessions s);
        }) }
    {
        take_entry(&mut self.sessions.list, s, entry, phase)
    }

    /// The history takes the entry of a turn whose reply is ready.
    pub(crate) fn accept(
        &mut self,
        alloc: Global,
        stories: &[Story],
        budget: u64,
        s: u8,
    ) -> Result<(), AllocError>
        ensures { OnOk result (self.new ≡ after stories.now budget self.old (JournalEvent.Accept s)) }
    {
        let Some(session) = self.sessions.list.get(s as usize) else {
            return Ok(());
        };
        let Some(turn) = &session.turn else {
            return Ok(());
        };
        let Phase::Ready(outcome) = turn.phase else {
            return Ok(());
        };
        let commands = session.history.commands(alloc)?;
        let decision = decision_on(alloc, stories, budget, &commands, turn.line.as_slice())?;
        let (reply, entry) = met(decision, turn.pass, outcome);
        self.take_entry(s, entry, Phase::Taken(outcome, reply))
    }
}
