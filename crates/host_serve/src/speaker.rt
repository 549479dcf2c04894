//! Who answers the lines of a link (own).
ghost use Rattle.std.specs.Prelude.{◌≡◌, ℕ, List, Option, OnOk, IfErr};
ghost use Rattle.std.specs.Option.{option_map};
ghost use Rattle.line_talk.specs.Lines.{heard};
ghost use Rattle.line_talk.specs.Streams.{Wrote};
ghost use Rattle.line_talk.specs.Writing.{Stopped};
ghost use Rattle.line_words.specs.Reply.{print_reply};
ghost use Rattle.story_run.specs.World.{WorldState};
ghost use Rattle.host_serve.specs.Chain.{Answers};
ghost use Rattle.host_serve.specs.Holders.{holders, seens};
ghost use Rattle.host_serve.specs.Hosts.{AreOf, IsSound};
ghost use Rattle.host_serve.specs.Told.{turn_from};

use crate::answer::{Answer, to_dropped};
use crate::host::{Host, Passes};
use crate::mark::Mark;
use crate::pause::Pause;
use disk_model::Disk;
use line_talk::{Answers, Sink, Stop, write_all};
use line_words::{Reply, write_reply};
use std::alloc::{AllocError, Global};
use std::sync::Wait;

/// A host as it answers the lines of one link, with its passes and marks.
#[derive(Drop)]
pub struct Speaker<'a, 'i, D: Disk, R, P> {
    pub host: &'a Host<'i, D>,
    pub rt: &'a R,
    pub pause: &'a P,
    /// The number of the link.
    pub number: u32,
    pub passes: &'a mut Passes<'i, D>,
    pub marks: &'a mut Vec<Mark>,
}

/// The answer to a line, or to one that was dropped.
fn answer_to<'i, D: Disk + Drop, R: Wait, P: Pause>(
    host: &Host<'i, D>,
    rt: &R,
    alloc: Global,
    passes: &mut Passes<'i, D>,
    pause: &P,
    line: Option<&[u8]>,
) -> Answer
    requires passes { AreOf host.now passes.old }
    ensures value { (world : Option WorldState)
        × ((bytes : List ℕ) → heard bytes ≡ option_map (λ l. l.now) line.entry
        → Answers host.now.stories.now host.now.budget (IsSound D.Disk host.now)
        (holders passes.old.desks.items) (seens passes.old.desks.items)
        (turn_from bytes world result) (seens passes.new.desks.items)) }
    ensures kept { AreOf host.now passes.new }
    ensures holders { holders passes.new.desks.items ≡ holders passes.old.desks.items }
{
    match line {
        Some(line) => host.answer(rt, alloc, passes, pause, line),
        None => to_dropped(),
    }
}

/// Writes a reply.
fn reply_with<K: Sink>(alloc: Global, reply: &Reply, output: &mut K) -> Result<(), Stop>
    ensures ok { OnOk result (Wrote (K.sink output.old) (K.sink output.new)
        (print_reply reply.now)) }
    ensures err { IfErr result (λ cause.
        Stopped (K.sink output.old) (K.sink output.new) (print_reply reply.now) cause) }
    ensures beside { K.beside output.new ≡ K.beside output.old }
{
    let Ok(text) = write_reply(alloc, reply) else {
        return Err(Stop::Memory);
    };
    write_all(output, &text)
}

impl<'a, 'i, D: Disk + Drop, R: Wait, P: Pause> Answers for Speaker<'a, 'i, D, R, P> {
    ghost use Rattle.std.specs.Prelude.{◌<◌, ℕ, false, vec_len, vec_capacity};
    ghost use Rattle.host_serve.specs.declared.host.Host.{Host};
    ghost use Rattle.host_serve.specs.Holders.{holders, seens};
    ghost use Rattle.host_serve.specs.Hosts.{AreOf, IsSound};
    ghost use Rattle.host_serve.specs.Speaking.{Speaking, Speaks};

    ghost State = { Speaking D };

    ghost state = { λ s. record {
      host = s.host.now;
      holders = holders s.passes.now.desks.items;
      seen = seens s.passes.now.desks.items;
      marks = s.marks.now.items;
    } };

    ghost turn = { Speaks (IsSound D.Disk) };

    ghost cut = { Speaks (IsSound D.Disk) };

    ghost over = { λ _. false };

    ghost invariant = { λ s. AreOf s.host.now s.passes.now };

    ghost ready = { λ s. vec_len s.marks.now < vec_capacity s.marks.now };

    ghost Lent = { Host D × ℕ × ℕ };

    ghost lent = { λ s. (s.host.now, s.passes.ghost_name, s.marks.ghost_name) };

    fn is_over(&self) -> bool {
        false
    }

    fn make_room(&mut self, _alloc: Global) -> Result<(), AllocError> {
        self.marks.reserve(1)
    }

    fn answer<K: Sink>(
        &mut self,
        alloc: Global,
        line: Option<&[u8]>,
        output: &mut K,
    ) -> Result<(), Stop> {
        let answer = answer_to(self.host, self.rt, alloc, self.passes, self.pause, line);
        self.marks.push_reserved(answer.mark);
        self.pause.before_reply(self.number);
        match reply_with(alloc, &answer.reply, output) {
            Ok(()) => Ok(()),
            Err(stop) => Err(stop),
        }
    }
}
