//! A turn of a shared desk (own).

ghost use Rattle.std.specs.Prelude.{◌≡◌, IsTrue, IfOk, None, false};
ghost use Rattle.turn_cell.specs.Passes.{IsOf, seen};
ghost use Rattle.session_core.specs.History.{last_of};
ghost use Rattle.session_core.specs.Turning.{AddsTo, commands_in};
ghost use Rattle.session_desk.specs.Commit.{IsInRange};
ghost use Rattle.session_desk.specs.Desk.{desk_emptied, game, is_cold, is_to_run, ran, shown_to};
ghost use Rattle.session_desk.specs.Desk.{world_now};
ghost use Rattle.session_desk.specs.Keeping.{snapshot_due};
ghost use Rattle.session_desk.specs.Laws.{decision_by_desk};
ghost use Rattle.session_desk.specs.Shared.{desk_tag, GoesOn, Rests, TurnsTo};
ghost use Rattle.session_desk.specs.Sound.{TurnsBy};
ghost use Rattle.session_desk.specs.Turn.{IsShown};
ghost use Rattle.session_desk.specs.Verdict.{verdict};
ghost use Rattle.session_desk.specs.declared.verdict.Verdict.TheVariants.{Fresh};

use super::Desk;
use super::prepare::out_of_memory;
use crate::held::Held;
use crate::laws::shows_fresh;
use crate::refused::Refused;
use crate::turned::Turned;
use disk_model::Disk;
use gate_journal::{DiskFault, Journal};
use line_words::{No, Reply, Request};
use session_core::Outcome;
use std::alloc::{AllocError, Global};
use std::sync::Wait;
use turn_cell::Cell;

impl<'i, D: Disk + Drop> Desk<'i, D> {
    /// Lets the world go.
    fn forget(&mut self)
        ensures { self.new ≡ record self.old { desk = desk_emptied self.old.desk } }
    {
        self.held = Held::Nothing;
    }

    /// The reply to a request whose command was just committed: its turn is made, and then shown.
    fn run_and_show(&mut self, alloc: Global, request: &Request) -> Result<Reply, AllocError>
        requires runs { IsTrue (is_to_run self.old.desk.held (last_of (game self.old.desk))) }
        requires warm { is_cold (ran self.old.desk) ≡ false }
        ensures value { IfOk result (λ reply. reply ≡ shown_to (ran self.old.desk) request.now) }
        ensures rests { Rests self.old self.new }
    {
        self.run(alloc)?;
        self.show(alloc, request)
    }

    /// The turn of a request whose command was just committed: it is run, and then shown. Where
    /// memory runs out the world is gone.
    fn shown_after(&mut self, alloc: Global, request: &Request) -> Turned
        requires runs { IsTrue (is_to_run self.old.desk.held (last_of (game self.old.desk))) }
        requires warm { is_cold (ran self.old.desk) ≡ false }
        ensures value { IsShown (shown_to (ran self.old.desk) request.now) result }
        ensures forgets { result.outcome ≡ Outcome.Forgotten
            → world_now self.new.desk.held ≡ None }
        ensures rests { Rests self.old self.new }
    {
        match self.run_and_show(alloc, request) {
            Ok(reply) => Turned {
                reply,
                outcome: Outcome::Answered,
            },
            Err(_) => {
                self.forget();
                Turned {
                    reply: Reply::No(No::NoMemory),
                    outcome: Outcome::Forgotten,
                }
            }
        }
    }

    /// The turn of a fresh request: its command is committed, and then run and shown.
    fn accept<R: Wait>(
        &mut self,
        rt: &R,
        alloc: Global,
        by: u64,
        journal: &Cell<Journal<D>>,
        request: &Request,
    ) -> Turned
        requires cell { IsOf journal.now self.old.pass }
        requires fresh { verdict self.old.desk request.now ≡ Fresh }
        requires due { snapshot_due self.old ≡ false }
        requires ranges { IsInRange request.now }
        ensures turn { TurnsTo (decision_by_desk self.old.desk request.now)
            by self.old.history result
            self.new.history }
        ensures journal { GoesOn self.old.desk.session
            (decision_by_desk self.old.desk request.now).accepted result.outcome
            (seen self.old.pass)
            (seen self.new.pass) }
        ensures forgets { result.outcome ≡ Outcome.Forgotten
            → world_now self.new.desk.held ≡ None }
        ensures kept { desk_tag self.new ≡ desk_tag self.old }
    {
        shows_fresh();
        match self.commit(rt, alloc, by, journal, request) {
            Ok(()) => self.shown_after(alloc, request),
            Err(Refused::DiskFault(DiskFault { from, to })) => Turned {
                reply: Reply::No(No::DiskFault { from, to }),
                outcome: Outcome::DiskFailed { from, to },
            },
            Err(Refused::NoMemory) => out_of_memory(),
        }
    }

    /// The turn of a request.
    fn decide<R: Wait>(
        &mut self,
        rt: &R,
        alloc: Global,
        by: u64,
        journal: &Cell<Journal<D>>,
        request: &Request,
    ) -> Turned
        requires cell { IsOf journal.now self.old.pass }
        requires ranges { IsInRange request.now }
        ensures turn { TurnsBy D.Disk request.now by self.old result self.new }
        ensures forgets { result.outcome ≡ Outcome.Forgotten
            → world_now self.new.desk.held ≡ None }
        ensures kept { desk_tag self.new ≡ desk_tag self.old }
    {
        match self.unless_fresh(alloc, request) {
            Some(turned) => turned,
            None => self.accept(rt, alloc, by, journal, request),
        }
    }

    /// One turn of the session: the reply to a request, whose command, if one is accepted, is a row
    /// of the journal before it is shown. A cold desk is made warm where the answer needs its
    /// world, and a snapshot that is due is put before a command is committed and before the reply
    /// is given. `by` is the number of the pass of the desk's own cell with which the turn is made.
    /// It waits for the journal's cell where it accepts a command, and nowhere else.
    pub fn answer<R: Wait>(
        &mut self,
        rt: &R,
        alloc: Global,
        by: u64,
        journal: &Cell<Journal<D>>,
        request: &Request,
    ) -> Turned
        requires cell { IsOf journal.now self.old.pass }
        requires ranges { IsInRange request.now }
        ensures commands { commands_in self.old.history ≡ self.old.desk.commands }
        ensures turn { TurnsBy D.Disk request.now by self.old result self.new }
        ensures adds { AddsTo self.old.history by self.new.history }
        ensures due { snapshot_due self.new ≡ false }

        // where memory ran out once the command was accepted, no world is held
        ensures forgets { result.outcome ≡ Outcome.Forgotten
            → world_now self.new.desk.held ≡ None }
        ensures kept { desk_tag self.new ≡ desk_tag self.old }
    {
        // with the marks comes what holds of every history
        let _many = self.marks.len();
        let turned = self.decide(rt, alloc, by, journal, request);
        self.keep(alloc);
        turned
    }
}
