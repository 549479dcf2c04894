//! The lines of one link (own).
ghost use Rattle.std.specs.Prelude.{◌≡◌, List};
ghost use Rattle.line_talk.specs.Causes.{Rose};
ghost use Rattle.host_serve.specs.Chain.{AnswersInOrder};
ghost use Rattle.host_serve.specs.Holders.{holders, seens};
ghost use Rattle.host_serve.specs.Hosts.{AreOf, IsSound};
ghost use Rattle.host_serve.specs.Serves.{ServesLines, AnsweredLine};
ghost use Rattle.host_serve.specs.Told.{TellsLink};

use crate::Served;
use crate::host::{Host, Passes};
use crate::mark::Mark;
use crate::pause::Pause;
use crate::speaker::Speaker;
use disk_model::Disk;
use line_talk::{Link, converse};
use std::alloc::Global;
use std::sync::Wait;

/// The room for one read, in bytes.
const PIECE: usize = 4096;

impl<'i, D: Disk + Drop> Host<'i, D> {
    /// Answers the lines of a link in their order, and adds a mark for each. `number` is the link's
    /// for `pause`.
    pub fn serve<R: Wait, L: Link, P: Pause>(
        &self,
        rt: &R,
        alloc: Global,
        passes: &mut Passes<'i, D>,
        pause: &P,
        number: u32,
        link: &mut L,
        marks: &mut Vec<Mark>,
    ) -> Served
        requires passes { AreOf self.now passes.old }
        ensures value { (turns : List AnsweredLine)
            × TellsLink turns (L.source link.old) (L.source link.new) (L.sink link.old)
            (L.sink link.new) marks.old.items marks.new.items result
            × AnswersInOrder self.now.stories.now self.now.budget (IsSound D.Disk self.now)
            (holders passes.old.desks.items) (seens passes.old.desks.items) turns
            (seens passes.new.desks.items)
            × ServesLines self.now.stories.now self.now.budget (IsSound D.Disk self.now)
            (holders passes.old.desks.items) (seens passes.old.desks.items) turns
            (seens passes.new.desks.items) }
        ensures end { ¬ (result ≡ Served.End)
            → (L.source link.new).ended ≡ (L.source link.old).ended }
        ensures read_fault { result ≡ Served.ReadFault
            → Rose (L.source link.old).faults (L.source link.new).faults }
        ensures write_fault { result ≡ Served.WriteFault
            → Rose (L.sink link.old).faults (L.sink link.new).faults }
        ensures kept { AreOf self.now passes.new }
        ensures holders { holders passes.new.desks.items ≡ holders passes.old.desks.items }
        ensures link { L.lent link.new ≡ L.lent link.old }
    {
        let Ok(mut buffer) = vec![in alloc; 0; PIECE] else {
            return Served::NoMemory;
        };
        let mut speaker = Speaker {
            host: self,
            rt,
            pause,
            number,
            passes,
            marks,
        };
        converse(alloc, &mut speaker, link, &mut buffer)
    }
}
