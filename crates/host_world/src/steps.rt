//! The events of a turn that decide nothing (own).

ghost use Rattle.std.specs.Prelude.{◌≡◌, ℕ, List, OnOk, OnErr};
ghost use Rattle.story_run.specs.declared.story.Story.{Story};
ghost use Rattle.host_world.specs.Events.{after, held_by};
ghost use Rattle.host_world.specs.declared.event.JournalEvent.TheVariants as JournalEvent;

use crate::event::Images;
use crate::sessions::{end_turn, end_turns, has_answer, phase_of, set_phase};
use crate::state::{Given, JournalHost, Step, set_step};
use crate::turn::Phase;
use disk_model::PlainDisk;
use line_words::{No, Reply};
use session_core::Outcome;
use std::alloc::{AllocError, Global};

/// Whether this session holds the journal.
pub fn holds(holder: Option<u8>, s: u8) -> bool
    ensures { result ≡ held_by holder s }
{
    match holder {
        None => false,
        Some(t) => t == s,
    }
}

impl JournalHost {
    /// Memory runs out in a turn of which no append has begun: `NO 12` is its reply.
    pub(crate) fn want(&mut self, s: u8)
        ensures { (stories : List Story) (budget : ℕ)
            → self.new ≡ after stories budget self.old (JournalEvent.Want s) }
    {
        match phase_of(self.sessions.as_slice(), s) {
            Some(Phase::Asked) => {
                if holds(self.holder, s) {
                    self.holder = None;
                }
                let phase = Phase::Plain(Outcome::OutOfMemory, Reply::No(No::NoMemory));
                set_phase(&mut self.sessions.list, s, phase);
            }
            Some(Phase::Plain(_, _)) => {
                let phase = Phase::Plain(Outcome::OutOfMemory, Reply::No(No::NoMemory));
                set_phase(&mut self.sessions.list, s, phase);
            }
            _ => {}
        }
    }

    /// A turn takes the journal, where nobody holds it.
    pub(crate) fn hold(&mut self, s: u8)
        ensures { (stories : List Story) (budget : ℕ)
            → self.new ≡ after stories budget self.old (JournalEvent.Hold s) }
    {
        if let Some(Phase::Asked) = phase_of(self.sessions.as_slice(), s) {
            if self.holder.is_none() {
                self.holder = Some(s);
            }
        }
    }

    /// It gives the journal back, once its append has ended.
    pub(crate) fn free(&mut self, s: u8)
        ensures { (stories : List Story) (budget : ℕ)
            → self.new ≡ after stories budget self.old (JournalEvent.Free s) }
    {
        if !holds(self.holder, s) {
            return;
        }
        match phase_of(self.sessions.as_slice(), s) {
            Some(Phase::Kept) => {
                self.holder = None;
                set_phase(&mut self.sessions.list, s, Phase::Freed);
            }
            Some(Phase::Broken { from, to }) => {
                let outcome = Outcome::DiskFailed {
                    from: *from,
                    to: *to,
                };
                self.holder = None;
                set_phase(&mut self.sessions.list, s, Phase::Ready(outcome));
            }
            _ => {}
        }
    }

    /// It answers; `found` says whether memory for the reply was found.
    pub(crate) fn run_turn(&mut self, s: u8, found: bool)
        ensures { (stories : List Story) (budget : ℕ)
            → self.new ≡ after stories budget self.old (JournalEvent.Run s found) }
    {
        if let Some(Phase::Freed) = phase_of(self.sessions.as_slice(), s) {
            let outcome = if found {
                Outcome::Answered
            } else {
                Outcome::Forgotten
            };
            set_phase(&mut self.sessions.list, s, Phase::Ready(outcome));
        }
    }

    /// The reply that is ready is given, and the turn is over. Where memory runs out nothing has
    /// changed.
    pub(crate) fn give(&mut self, s: u8) -> Result<(), AllocError>
        ensures ok { (stories : List Story) (budget : ℕ)
            → OnOk result (self.new ≡ after stories budget self.old (JournalEvent.Give s)) }
        ensures err { OnErr result (self.new ≡ self.old) }
    {
        if !has_answer(self.sessions.as_slice(), s) {
            return Ok(());
        }
        self.given.list.reserve(1)?;
        if let Some(reply) = end_turn(&mut self.sessions.list, s) {
            let _ = self.given.list.push(Given { session: s, reply });
        }
        Ok(())
    }

    /// The host stops, and its disk holds the image, where a stop may leave it. Where memory runs
    /// out nothing has changed.
    pub(crate) fn stop(&mut self, alloc: Global, images: &Images) -> Result<(), AllocError>
        ensures ok { (stories : List Story) (budget : ℕ)
            → OnOk result (self.new ≡ after stories budget self.old (JournalEvent.Stop images.now)) }
        ensures err { OnErr result (self.new ≡ self.old) }
    {
        let [image] = images.as_slice() else {
            return Ok(());
        };
        if !self.disk.is_image(image.as_slice()) {
            return Ok(());
        }
        self.disk = PlainDisk::settled(alloc, image.as_slice())?;
        end_turns(&mut self.sessions.list);
        self.up = false;
        self.holder = None;
        set_step(&mut self.step, Step::Idle);
        Ok(())
    }

    /// An opening begins, where the host is down.
    pub(crate) fn recover(&mut self)
        ensures { (stories : List Story) (budget : ℕ)
            → self.new ≡ after stories budget self.old JournalEvent.Recover }
    {
        if !self.up {
            set_step(&mut self.step, Step::FirstSync);
        }
    }
}
