//! A turn of a shared desk before it commits anything (own).

ghost use Rattle.std.specs.Prelude.{◌≡◌, ◌≢◌, IfOk, OnOk, MatchOption, ⊤, false};
ghost use Rattle.session_core.specs.declared.decision.Decision.{Decision};
ghost use Rattle.session_desk.specs.Desk.{game, HoldsOwnWorld, is_cold, shown_to};
ghost use Rattle.session_desk.specs.Keeping.{snapshot_due};
ghost use Rattle.session_desk.specs.Laws.{decision_by_desk};
ghost use Rattle.session_desk.specs.Shared.{desk_tag, Rests};
ghost use Rattle.session_desk.specs.Sound.{Decides, IsSoundDesk};
ghost use Rattle.session_desk.specs.Turn.{AcceptsNothing, out_of_memory};
ghost use Rattle.session_desk.specs.Verdict.{verdict};
ghost use Rattle.session_desk.specs.declared.verdict.Verdict.TheVariants.{Cold, Fresh};

use super::Desk;
use crate::laws::{refuses_alike, shows_again, stays_warm};
use crate::turned::Turned;
use crate::verdict::Verdict;
use disk_model::Disk;
use line_words::{No, Reply, Request};
use session_core::{Outcome, session_of};
use std::alloc::{AllocError, Global};
use std::marker::Brand;
use std::sync::ledger::{Blank, Ledger};
use story_run::Steps;
use story_text::Bytes;

/// The turn in which memory ran out before anything was written.
pub(super) fn out_of_memory() -> Turned
    ensures { result ≡ out_of_memory }
{
    Turned {
        reply: Reply::No(No::NoMemory),
        outcome: Outcome::OutOfMemory,
    }
}

impl<'i, D: Disk + Drop> Desk<'i, D> {
    /// Makes the desk warm where the answer to the request needs a world that isn't held. The count
    /// of steps begins with this blank.
    fn warm_for<L: Ledger>(
        &mut self,
        alloc: Global,
        request: &Request,
        blank: Blank,
    ) -> Result<(), AllocError>
        requires name { blank.name ≡ L.name }
        requires parts { blank.parts ≡ L.parts }
        requires one { L.parts ≡ 1 }
        ensures warm { OnOk result (verdict self.new.desk request.now ≢ Cold) }
        ensures rests { Rests self.old self.new }
    {
        match self.check(request) {
            Verdict::Cold => {
                stays_warm();
                let mut steps = Steps::<L>::new(blank);
                self.warm(alloc, &mut steps)
            }
            Verdict::Refuse(_) | Verdict::Again | Verdict::Fresh => Ok(()),
        }
    }

    /// The verdict on a request, for which a cold desk is made warm; then no snapshot is due. The
    /// count of steps begins with this blank.
    fn prepare<L: Ledger>(
        &mut self,
        alloc: Global,
        request: &Request,
        blank: Blank,
    ) -> Result<Verdict, AllocError>
        requires name { blank.name ≡ L.name }
        requires parts { blank.parts ≡ L.parts }
        requires one { L.parts ≡ 1 }
        ensures value { IfOk result (λ said. said ≡ verdict self.new.desk request.now) }
        ensures warm { OnOk result (verdict self.new.desk request.now ≢ Cold) }
        ensures due { OnOk result (snapshot_due self.new ≡ false) }
        ensures own { OnOk result (IsSoundDesk D.Disk (desk_tag self.new)
            → HoldsOwnWorld self.new.desk.stories (game self.new.desk) self.new.desk.held) }
        ensures rests { Rests self.old self.new }
    {
        self.warm_for::<L>(alloc, request, blank)?;
        self.keep(alloc);
        Ok(self.check(request))
    }

    /// The last show as the reply to the request.
    pub(super) fn show(&self, alloc: Global, request: &Request) -> Result<Reply, AllocError>
        requires { is_cold self.now.desk ≡ false }
        ensures { IfOk result (λ reply. reply ≡ shown_to self.now.desk request.now) }
    {
        let last = self.last().unwrap();
        let body = Bytes::of(Vec::from_slice(alloc, last)?);
        Ok(Reply::Show {
            s: session_of(request),
            n: self.number(request),
            body,
        })
    }

    /// The turn of a request that makes the session accept nothing, or of one for which there is no
    /// memory; None where the request is fresh. A cold desk is made warm where the answer needs its
    /// world.
    pub(super) fn unless_fresh(&mut self, alloc: Global, request: &Request) -> Option<Turned>
        ensures value { MatchOption result
            ((verdict self.new.desk request.now ≡ Fresh)
            × Decides D.Disk request.now self.old (decision_by_desk self.new.desk request.now))
            (λ turned. (decision : Decision)
            × Decides D.Disk request.now self.old decision × AcceptsNothing decision turned) }
        ensures due { MatchOption result (snapshot_due self.new ≡ false) (λ _. ⊤) }
        ensures rests { Rests self.old self.new }
    {
        refuses_alike();
        shows_again();
        stays_warm();
        let Ok(said) = self.prepare::<Brand>(alloc, request, Blank::new(1)) else {
            return Some(out_of_memory());
        };
        match said {
            Verdict::Refuse(why) => Some(Turned {
                reply: Reply::No(why),
                outcome: Outcome::Answered,
            }),
            Verdict::Again => match self.show(alloc, request) {
                Ok(reply) => Some(Turned {
                    reply,
                    outcome: Outcome::Answered,
                }),
                Err(_) => Some(out_of_memory()),
            },
            Verdict::Fresh => None,
            Verdict::Cold => unreachable!(),
        }
    }
}
