//! The event that makes a device call (own).

ghost use Rattle.std.specs.Prelude.{◌≡◌, [], ◌∷◌, IfOk, IsTrue, MatchOption, OnOk, false};
ghost use Rattle.gate_journal.specs.Command.{IsBudget};
ghost use Rattle.host_world.specs.Journal.{next_call, onward, failed, call_ended, is_append};
ghost use Rattle.host_world.specs.Journal.{is_idle, sessions_with};
ghost use Rattle.host_world.specs.Events.{after, begun, begun_with, call_next, first_step};
ghost use Rattle.host_world.specs.declared.event.JournalEvent.TheVariants as JournalEvent;
ghost use Rattle.host_world.specs.declared.state.Step.TheVariants as Steps;
ghost use Rattle.host_world.specs.declared.turn.Phase.TheVariants as Phases;

use crate::deciding::decision_on;
use crate::rows::{JournalRows, NewRow};
use crate::sessions::set_phase;
use crate::state::{JournalHost, Step, set_step};
use crate::turn::Phase;
use session_core::Decision;
use std::alloc::{AllocError, Global};
use std::mem;
use store_events::{DiskCall, make_call};
use story_run::Story;
use story_text::Bytes;

/// Where the byte stands that tells a journal's version.
const VERSION_PLACE: u128 = 8;

fn one_byte(alloc: Global, byte: u8) -> Result<Bytes, AllocError>
    ensures { IfOk result (λ bytes. bytes ≡ byte ∷ []) }
{
    Ok(Bytes::of(Vec::from_slice(alloc, &[byte])?))
}

// The device call that a step makes.
fn next_call(alloc: Global, rows: &JournalRows, step: &Step) -> Result<Option<DiskCall>, AllocError>
    ensures { IfOk result (λ call. call ≡ next_call rows.now step.now) }
{
    let call = match step {
        Step::Idle => return Ok(None),
        Step::RepairWrite { .. } => DiskCall::Write {
            at: rows.end(),
            piece: one_byte(alloc, 0)?,
        },
        Step::RowWrite { row, .. } => DiskCall::Write {
            at: rows.end() + 1,
            piece: row.past_gate(alloc)?,
        },
        Step::GateWrite { .. } => DiskCall::Write {
            at: rows.end(),
            piece: one_byte(alloc, 1)?,
        },
        Step::CloseWrite { rows } => DiskCall::Write {
            at: u128::from(rows.end()),
            piece: one_byte(alloc, 0)?,
        },
        Step::VersionWrite { .. } => DiskCall::Write {
            at: VERSION_PLACE,
            piece: one_byte(alloc, 1)?,
        },
        Step::AskSize | Step::ReadAll => DiskCall::Look,
        _ => DiskCall::Sync,
    };
    Ok(Some(call))
}

// Whether nothing is under way.
fn is_idle(step: &Step) -> bool
    ensures { result ≡ is_idle step.now }
{
    matches!(step, Step::Idle)
}

// Whether the step is one of an append.
fn is_append(step: &Step) -> bool
    ensures { result ≡ is_append step.now }
{
    matches!(
        step,
        Step::RepairWrite { .. }
            | Step::RepairSync { .. }
            | Step::RowWrite { .. }
            | Step::RowSync { .. }
            | Step::GateWrite { .. }
            | Step::GateSync { .. }
    )
}

impl JournalHost {
    // The row of the append that begins with the next call, if one does.
    #[tactic(auto, using(crate::proofs::CallCode::busy_begins, crate::proofs::CallCode::idle_is))]
    fn row_begun(
        &self,
        alloc: Global,
        stories: &[Story],
        budget: u64,
    ) -> Result<Option<NewRow>, AllocError>
        requires { IsBudget budget }
        ensures { IfOk result (λ row. MatchOption row
            (begun stories.now budget self.now ≡ self.now)
            (λ r. (self.now.step ≡ Steps.Idle)
            × (begun stories.now budget self.now ≡ begun_with self.now r))) }
    {
        if !is_idle(&self.step) {
            return Ok(None);
        }
        self.row_held(alloc, stories, budget, self.holder)
    }

    // The row of who holds the journal, where an append of it begins.
    #[tactic(auto, using(crate::proofs::Accepting::accepted_fits))]
    fn row_held(
        &self,
        alloc: Global,
        stories: &[Story],
        budget: u64,
        holder: Option<u8>,
    ) -> Result<Option<NewRow>, AllocError>
        requires budget { IsBudget budget }
        requires idle { self.now.step ≡ Steps.Idle }
        requires held { self.now.holder ≡ holder }
        ensures { IfOk result (λ row. MatchOption row
            (begun stories.now budget self.now ≡ self.now)
            (λ r. (self.now.step ≡ Steps.Idle)
            × (begun stories.now budget self.now ≡ begun_with self.now r))) }
    {
        let Some(s) = holder else {
            return Ok(None);
        };
        let Some(session) = self.sessions.list.get(s as usize) else {
            return Ok(None);
        };
        let Some(turn) = &session.turn else {
            return Ok(None);
        };
        let Phase::Asked = turn.phase else {
            return Ok(None);
        };
        let commands = session.history.commands(alloc)?;
        let decision = decision_on(alloc, stories, budget, &commands, turn.line.as_slice())?;
        let Decision { accepted, .. } = decision;
        let Some(command) = accepted else {
            return Ok(None);
        };
        command.has_digest();
        Ok(Some(self.rows.next(s, command)))
    }

    // The step with which the append of a row begins: a gate of which nothing is known is closed
    // first.
    fn first_step(&self, row: NewRow) -> Step
        ensures { result ≡ first_step self.now.uncertain row self.now.faults }
    {
        let from = self.faults;
        if self.uncertain.is_some() {
            Step::RepairWrite { row, from }
        } else {
            Step::RowWrite { row, from }
        }
    }

    // The turn of a session goes on to this phase.
    fn go_to(&mut self, s: u8, phase: Phase)
        ensures { self.new ≡ record self.old { sessions = sessions_with self.old s phase } }
    {
        set_phase(&mut self.sessions.list, s, phase);
    }

    // The row is synced, and its gate is opened next.
    fn open_gate(&mut self, alloc: Global, row: NewRow, from: u64) -> Result<(), AllocError>
        ensures { OnOk result (self.new ≡ onward self.old (Steps.RowSync row from)) }
    {
        self.uncertain = Some(row.copy_of(alloc)?);
        set_step(&mut self.step, Step::GateWrite { row, from });
        Ok(())
    }

    // Its gate is open, and synced.
    fn keep_row(&mut self, row: NewRow, _from: u64) -> Result<(), AllocError>
        ensures { OnOk result (self.new ≡ onward self.old (Steps.GateSync row _from)) }
    {
        self.go_to(row.session(), Phase::Kept);
        self.rows.push(row)?;
        self.uncertain = None;
        set_step(&mut self.step, Step::Idle);
        Ok(())
    }

    // A good call of this step of an append was made.
    fn append_onward(&mut self, alloc: Global, step: Step) -> Result<(), AllocError>
        requires { IsTrue (is_append step) }
        ensures { OnOk result (self.new ≡ onward self.old step) }
    {
        match step {
            Step::RepairWrite { row, from } => {
                set_step(&mut self.step, Step::RepairSync { row, from });
            }
            Step::RepairSync { row, from } => {
                self.uncertain = None;
                set_step(&mut self.step, Step::RowWrite { row, from });
            }
            Step::RowWrite { row, from } => {
                set_step(&mut self.step, Step::RowSync { row, from });
            }
            Step::RowSync { row, from } => return self.open_gate(alloc, row, from),
            Step::GateWrite { row, from } => {
                set_step(&mut self.step, Step::GateSync { row, from });
            }
            Step::GateSync { row, from } => return self.keep_row(row, from),
            _other => {}
        }
        Ok(())
    }

    // A good call of this step of an opening was made.
    fn opening_onward(&mut self, alloc: Global, step: Step) -> Result<(), AllocError>
        requires { is_append step ≡ false }
        ensures { OnOk result (self.new ≡ onward self.old step) }
    {
        match step {
            Step::FirstSync => set_step(&mut self.step, Step::AskSize),
            Step::AskSize => set_step(&mut self.step, Step::ReadAll),
            Step::ReadAll => return self.look(alloc),
            Step::CloseWrite { rows } => set_step(&mut self.step, Step::CloseSync { rows }),
            Step::CloseSync { rows } => return self.go_on_closed(alloc, rows),
            Step::VersionWrite { rows } => set_step(&mut self.step, Step::VersionSync { rows }),
            Step::VersionSync { rows } => return self.come_up(alloc, rows),
            _other => {}
        }
        Ok(())
    }

    // A good call of this step was made.
    fn go_onward(&mut self, alloc: Global, step: Step) -> Result<(), AllocError>
        ensures { OnOk result (self.new ≡ onward self.old step) }
    {
        if is_append(&step) {
            self.append_onward(alloc, step)
        } else {
            self.opening_onward(alloc, step)
        }
    }

    // The append of this session's row has failed.
    fn break_off(&mut self, s: u8, from: u64)
        ensures { self.new ≡ record self.old {
          sessions = sessions_with self.old s (Phases.Broken from self.old.faults);
          step = Steps.Idle;
        } }
    {
        let phase = Phase::Broken {
            from,
            to: self.faults,
        };
        self.go_to(s, phase);
        set_step(&mut self.step, Step::Idle);
    }

    // A call of this step failed: the operation ends.
    fn fail(&mut self, step: Step)
        ensures { self.new ≡ failed self.old step }
    {
        match step {
            Step::RepairWrite { row, from } => self.break_off(row.session(), from),
            Step::RepairSync { row, from } => self.break_off(row.session(), from),
            Step::RowWrite { row, from } => self.break_off(row.session(), from),
            Step::RowSync { row, from } => self.break_off(row.session(), from),
            Step::GateWrite { row, from } => self.break_off(row.session(), from),
            Step::GateSync { row, from } => self.break_off(row.session(), from),
            _ => set_step(&mut self.step, Step::Idle),
        }
    }

    // A call of this step was made.
    fn end_call(&mut self, alloc: Global, step: Step, good: bool) -> Result<(), AllocError>
        ensures { OnOk result (self.new ≡ call_ended self.old good step) }
    {
        if good {
            return self.go_onward(alloc, step);
        }
        self.faults = self.faults.saturating_add(1);
        self.fail(step);
        Ok(())
    }

    // The first call of the append of this row.
    fn begin(
        &mut self,
        alloc: Global,
        row: NewRow,
        good: bool,
        reads: &[u8],
    ) -> Result<(), AllocError>
        requires { self.old.step ≡ Steps.Idle }
        ensures { OnOk result
            (self.new ≡ call_next self.old (begun_with self.old row) good reads.now) }
    {
        let s = row.session();
        let step = self.first_step(row);
        let Some(call) = next_call(alloc, &self.rows, &step)? else {
            return Ok(());
        };
        if !make_call(alloc, &mut self.disk, &call, good, reads)? {
            return Ok(());
        }
        self.go_to(s, Phase::Begun);
        self.end_call(alloc, step, good)
    }

    // The next call of what is under way.
    fn go_on(&mut self, alloc: Global, good: bool, reads: &[u8]) -> Result<(), AllocError>
        ensures { OnOk result (self.new ≡ call_next self.old self.old good reads.now) }
    {
        let Some(call) = next_call(alloc, &self.rows, &self.step)? else {
            return Ok(());
        };
        if !make_call(alloc, &mut self.disk, &call, good, reads)? {
            return Ok(());
        }
        let step = mem::replace(&mut self.step, Step::Idle);
        self.end_call(alloc, step, good)
    }

    /// The disk makes its next call. Where that isn't good the disk reads as `reads` from then on.
    pub(crate) fn call(
        &mut self,
        alloc: Global,
        stories: &[Story],
        budget: u64,
        disk: u8,
        good: bool,
        reads: &Bytes,
    ) -> Result<(), AllocError>
        requires { IsBudget budget }
        ensures { OnOk result
            (self.new ≡ after stories.now budget self.old (JournalEvent.Call disk good reads.now)) }
    {
        if disk != 0 {
            return Ok(());
        }
        match self.row_begun(alloc, stories, budget)? {
            Some(row) => self.begin(alloc, row, good, reads.as_slice()),
            None => self.go_on(alloc, good, reads.as_slice()),
        }
    }
}
