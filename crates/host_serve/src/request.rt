//! Requests to a host (own).
ghost use Rattle.std.specs.Prelude.{◌≡◌, List, Option};
ghost use Rattle.story_run.specs.World.{WorldState};
ghost use Rattle.host_serve.specs.Chain.{Answers};
ghost use Rattle.host_serve.specs.Holders.{holders, seens};
ghost use Rattle.host_serve.specs.Hosts.{AreOf, IsSound};
ghost use Rattle.host_serve.specs.Serves.{IsExact, AnsweredLine};
ghost use Rattle.host_serve.specs.Told.{turn_from};

use crate::answer::{Answer, to_absent, to_unread};
use crate::host::{Host, Passes};
use crate::pause::Pause;
use crate::read::read;
use crate::turn::turn_in;
use disk_model::Disk;
use line_words::Reply;
use session_core::session_of;
use std::alloc::Global;
use std::sync::Wait;

impl<'i, D: Disk + Drop> Host<'i, D> {
    /// Answers one line, with its mark.
    pub(crate) fn answer<R: Wait, P: Pause>(
        &self,
        rt: &R,
        alloc: Global,
        passes: &mut Passes<'i, D>,
        pause: &P,
        line: &[u8],
    ) -> Answer
        requires passes { AreOf self.now passes.old }
        ensures value { (world : Option WorldState)
            × Answers self.now.stories.now self.now.budget (IsSound D.Disk self.now)
            (holders passes.old.desks.items) (seens passes.old.desks.items)
            (turn_from line.now world result) (seens passes.new.desks.items) }
        ensures kept { AreOf self.now passes.new }
        ensures holders { holders passes.new.desks.items ≡ holders passes.old.desks.items }
    {
        let request = match read(alloc, self.budget, line) {
            Ok(request) => request,
            Err(why) => return to_unread(line, why),
        };
        let s = session_of(&request) as usize;
        if s >= 64 {
            return to_absent(line, &request);
        }
        turn_in(
            rt,
            alloc,
            self,
            &self.desks[s],
            &mut passes.desks[s],
            pause,
            line,
            &request,
        )
    }

    /// Answers one line, which is given without its LF, by one turn on its session's history.
    pub fn request<R: Wait, P: Pause>(
        &self,
        rt: &R,
        alloc: Global,
        passes: &mut Passes<'i, D>,
        pause: &P,
        line: &[u8],
    ) -> Reply
        requires passes { AreOf self.now passes.old }
        ensures value { (turn : AnsweredLine) × (turn.line ≡ line.now) × (turn.reply ≡ result)
            × Answers self.now.stories.now self.now.budget (IsSound D.Disk self.now)
            (holders passes.old.desks.items) (seens passes.old.desks.items) turn
            (seens passes.new.desks.items)
            × IsExact self.now.stories.now self.now.budget (holders passes.old.desks.items)
            (seens passes.new.desks.items) turn }
        ensures kept { AreOf self.now passes.new }
        ensures holders { holders passes.new.desks.items ≡ holders passes.old.desks.items }
    {
        self.answer(rt, alloc, passes, pause, line).reply
    }
}
