//! The lines of a link in memory, answered by a host.
ghost use Rattle.std.specs.Prelude.{◌≡◌, IfOk};
ghost use Rattle.host_serve.specs.Holders.{holders};
ghost use Rattle.host_serve.specs.Hosts.{AreOf};
ghost use Rattle.host_drill.specs.Drilled.{AnswersAll};

use disk_model::Disk;
use host_serve::{Host, Mark, NoPause, Passes, Served};
use line_talk::{MemoryLink, MemorySink, MemorySource};
use std::alloc::{AllocError, Global};
use std::sync::Wait;

/// How many bytes a read gives at most, and a write takes.
const PIECE: usize = 4096;

/// The replies as they were written, and a mark for each line.
#[derive(Drop)]
pub struct Answered {
    pub replies: Vec<u8>,
    pub marks: Vec<Mark>,
}

/// Has a host answer all of these lines. An error where memory ran out before the last one.
pub fn answer_all<'i, R: Wait, D: Disk + Drop>(
    rt: &R,
    alloc: Global,
    host: &Host<'i, D>,
    passes: &mut Passes<'i, D>,
    number: u32,
    lines: Vec<u8>,
) -> Result<Answered, AllocError>
    requires passes { AreOf host.now passes.old }
    ensures value { IfOk result (λ a. AnswersAll D.Disk host.now passes.old passes.new
        lines.items a.replies.items a.marks.items) }
    ensures kept { AreOf host.now passes.new }
    ensures holders { holders passes.new.desks.items ≡ holders passes.old.desks.items }
{
    let mut link = MemoryLink {
        source: MemorySource::new(lines, PIECE, Vec::new(alloc)),
        sink: MemorySink::new(alloc, PIECE, Vec::new(alloc)),
    };
    let mut marks = Vec::new(alloc);
    match host.serve(rt, alloc, passes, &NoPause, number, &mut link, &mut marks) {
        Served::End => Ok(Answered {
            replies: link.sink.bytes().to_vec(alloc)?,
            marks,
        }),
        _ => Err(AllocError),
    }
}
