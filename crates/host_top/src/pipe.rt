//! The command `pipe`, which answers the numbered requests of one connection.
ghost use Rattle.std.specs.Prelude.{◌≡◌, length};
ghost use Rattle.gate_journal.specs.Command.{IsBudget};
ghost use Rattle.host_serve.specs.Holders.{holders};
ghost use Rattle.host_serve.specs.Hosts.{AreOf, IsSound};
ghost use Rattle.line_talk.specs.Causes.{Rose};
ghost use Rattle.host_top.specs.Folder.{IsSameBack, UsesFolder};
ghost use Rattle.host_top.specs.Calls.{DisksStand};
ghost use Rattle.host_top.specs.Files.{KeepsDoors, KeepsFiles};
ghost use Rattle.host_top.specs.Piped.{PipesOver};
ghost use Rattle.host_top.specs.Between.{ServesBetween};

use crate::folder::{Back, Disks};
use crate::lending::{put_folder_back, take_folder};
use crate::opening::open_host;
use crate::outside::Outside;
use crate::status::Status;
use disk_model::Disk;
use host_serve::{Host, NoPause, Passes, Served};
use line_talk::{Both, Sink, Source};
use std::alloc::Global;
use std::sync::Wait;
use story_run::Story;

/// Answers the lines of an input by a host's passes.
fn answer_lines<'i, R: Wait, D: Disk + Drop, S: Source, K: Sink>(
    rt: &R,
    alloc: Global,
    host: &Host<'i, D>,
    passes: &mut Passes<'i, D>,
    input: &mut S,
    output: &mut K,
) -> Served
    requires passes { AreOf host.now passes.old }
    ensures value { ServesBetween (IsSound D.Disk host.now) host.now passes.old
        passes.new (S.source input.old)
        (S.source input.new) (K.sink output.old) (K.sink output.new) result }
    ensures kept { AreOf host.now passes.new }
    ensures holders { holders passes.new.desks.items ≡ holders passes.old.desks.items }
    ensures read_fault { result ≡ Served.ReadFault
        → Rose (S.source input.old).faults (S.source input.new).faults }
    ensures write_fault { result ≡ Served.WriteFault
        → Rose (K.sink output.old).faults (K.sink output.new).faults }
{
    let mut marks = Vec::new(alloc);
    let mut link = Both {
        source: input,
        sink: output,
    };
    host.serve(rt, alloc, passes, &NoPause, 0, &mut link, &mut marks)
}

/// Answers the requests of the input by the sessions of the folder whose disks these are, and tells
/// what comes back of these.
fn pipe_over<'i, R: Wait, D: Disk + Drop, S: Source, K: Sink>(
    rt: &R,
    alloc: Global,
    stories: &'i [Story<'i>],
    budget: u64,
    disks: Disks<D>,
    input: &mut S,
    output: &mut K,
) -> (Status, Back<D>)
    requires budget { IsBudget budget }
    requires many { length disks.snaps.items ≡ 64 }
    ensures value { PipesOver D.Disk stories.now budget disks.journal disks.snaps.items result.1
        (S.source input.old) (S.source input.new) (K.sink output.old) (K.sink output.new)
        result.0 }
    ensures kept { IsSameBack D.Disk disks.journal disks.snaps.items result.1 }
    ensures read_fault { result.0 ≡ Status.ReadFault
        → Rose (S.source input.old).faults (S.source input.new).faults }
    ensures write_fault { result.0 ≡ Status.WriteFault
        → Rose (K.sink output.old).faults (K.sink output.new).faults }
{
    let (host, mut passes) = match open_host(alloc, stories, budget, disks, output) {
        Ok(opened) => opened,
        Err(refusal) => return refusal,
    };
    let served = answer_lines(rt, alloc, &host, &mut passes, input, output);
    let (journal, snaps) = host.end(rt, passes);
    (Status::of_end(served), Back::All(journal, snaps))
}

/// Answers the requests of the input by the sessions of a folder.
pub fn pipe<'i, R: Wait, O: Outside, S: Source, K: Sink>(
    rt: &R,
    alloc: Global,
    stories: &'i [Story<'i>],
    budget: u64,
    folder: &str,
    outside: &mut O,
    input: &mut S,
    output: &mut K,
) -> Status
    requires budget { IsBudget budget }
    ensures value { UsesFolder O.Disk.Disk folder.now
        (λ given givens back. PipesOver O.Disk.Disk stories.now budget given givens back
        (S.source input.old) (S.source input.new) (K.sink output.old) (K.sink output.new) result)
        (O.outside outside.old) (O.outside outside.new) (S.source input.old) (S.source input.new)
        (K.sink output.old) (K.sink output.new) result }
    ensures read_fault { result ≡ Status.ReadFault
        → Rose (S.source input.old).faults (S.source input.new).faults }
    ensures write_fault { result ≡ Status.WriteFault
        → Rose (K.sink output.old).faults (K.sink output.new).faults }
    ensures stood { DisksStand (O.failing_loans outside.old) (O.outside outside.old)
        (O.outside outside.new) → ¬ (result ≡ Status.DiskFault) }
    ensures files { KeepsFiles (O.outside outside.old) (O.outside outside.new) }
    ensures doors { KeepsDoors (O.outside outside.old) (O.outside outside.new) }
{
    let (names, disks) = match take_folder(alloc, folder, outside) {
        Ok(taken) => taken,
        Err(why) => return Status::of_fetch(why),
    };
    let (status, back) = pipe_over(rt, alloc, stories, budget, disks, input, output);
    put_folder_back(&names, back, outside);
    status
}
