//! The command `replay`, which writes what the players of a folder were shown.
ghost use Rattle.std.specs.Prelude.{◌≡◌, ◌⊎◌, IfErr, OnOk, IsTrue, map};
ghost use Rattle.std.specs.List.{flat_map};
ghost use Rattle.host_top.specs.Calls.{DisksStand};
ghost use Rattle.host_top.specs.Files.{KeepsDoors, KeepsFiles};
ghost use Rattle.host_top.specs.Replayed.{ReplaysOn, ReplaysOver};
ghost use Rattle.line_talk.specs.Causes.{Rose};
ghost use Rattle.line_talk.specs.Streams.{SourceState, Wrote};
ghost use Rattle.line_talk.specs.Writing.{Stopped};
ghost use Rattle.story_replay.specs.Text.{game_text, transcript};

use crate::folder::journal_name;
use crate::outside::Outside;
use crate::say::say_fault;
use crate::status::Status;
use gate_journal::{Row, scan};
use line_talk::{Sink, Stop, write_all};
use std::alloc::Global;
use std::thread::Threads;
use story_replay::{Game, games, texts};
use story_run::Story;
use story_text::Bytes;

/// So many games are played at one time, before their texts are written.
const GAMES: usize = 16;

/// Writes texts, one after the other.
fn write_texts<K: Sink>(texts: &[Bytes], output: &mut K) -> Result<(), Stop>
    ensures ok { OnOk result (Wrote (K.sink output.old) (K.sink output.new)
        (flat_map (λ text. text) texts.now)) }
    ensures err { IfErr result (λ cause. Stopped (K.sink output.old) (K.sink output.new)
        (flat_map (λ text. text) texts.now) cause) }
{
    for text in texts {
        write_all(output, text.as_slice())?;
    }
    Ok(())
}

/// Writes the texts of games, those of 16 before the next 16 are played. The outside is told how
/// many games are left.
fn write_games<R: Threads + Sync, O: Outside, K: Sink>(
    rt: &R,
    alloc: Global,
    stories: &[Story<'_>],
    games: &[Game],
    outside: &mut O,
    output: &mut K,
) -> Result<(), Stop>
    ensures ok { OnOk result (Wrote (K.sink output.old) (K.sink output.new)
        (flat_map (game_text stories.now) games.now)) }
    ensures err { IfErr result (λ cause. Stopped (K.sink output.old) (K.sink output.new)
        (flat_map (game_text stories.now) games.now) cause) }
    ensures outside { O.outside outside.new ≡ O.outside outside.old }
{
    let mut rest = games;
    while !rest.is_empty() {
        let (some, more) = rest.split_at(rest.len().min(GAMES));
        let texts = texts(rt, alloc, stories, some)?;
        write_texts(&texts, output)?;
        rest = more;
        outside.progress(rest.len(), games.len());
    }
    Ok(())
}

/// Writes the transcript of a journal's rows.
fn write_transcript<R: Threads + Sync, O: Outside, K: Sink>(
    rt: &R,
    alloc: Global,
    stories: &[Story<'_>],
    rows: Vec<Row>,
    outside: &mut O,
    output: &mut K,
) -> Result<(), Stop>
    ensures ok { OnOk result (Wrote (K.sink output.old) (K.sink output.new)
        (transcript stories.now rows.items)) }
    ensures err { IfErr result (λ cause. Stopped (K.sink output.old) (K.sink output.new)
        (transcript stories.now rows.items) cause) }
    ensures outside { O.outside outside.new ≡ O.outside outside.old }
{
    let games = games(alloc, &rows)?;
    drop(rows);
    write_games(rt, alloc, stories, &games, outside, output)?;
    write_all(output, b"done\n")
}

/// Writes the transcript of the journal on this disk, which is only looked at, or the line by which
/// it is refused.
fn replay_over<R: Threads + Sync, O: Outside, K: Sink>(
    rt: &R,
    alloc: Global,
    stories: &[Story<'_>],
    disk: &mut O::Disk,
    outside: &mut O,
    output: &mut K,
) -> Status
    ensures value { ReplaysOver O.Disk.Disk stories.now disk.old disk.new
        (K.sink output.old) (K.sink output.new) result }
    ensures read_fault { ¬ (result ≡ Status.ReadFault) }
    ensures write_fault { result ≡ Status.WriteFault
        → Rose (K.sink output.old).faults (K.sink output.new).faults }
    ensures outside { O.outside outside.new ≡ O.outside outside.old }
{
    let rows = match scan(alloc, disk) {
        Ok(rows) => rows,
        Err(fault) => return say_fault(alloc, fault, output),
    };
    match write_transcript(rt, alloc, stories, rows, outside, output) {
        Ok(()) => Status::Done,
        Err(stop) => Status::of_stop(stop),
    }
}

/// Writes what the players of a folder were shown, from its journal alone. No input is read, and no
/// disk is written.
pub fn replay<R: Threads + Sync, O: Outside, K: Sink>(
    rt: &R,
    alloc: Global,
    stories: &[Story<'_>],
    folder: &str,
    outside: &mut O,
    output: &mut K,
) -> Status
    ensures value { (input : SourceState) → ReplaysOn O.Disk.Disk stories.now folder.now
        (O.outside outside.old) (O.outside outside.new) input input
        (K.sink output.old) (K.sink output.new) result }
    ensures read_fault { ¬ (result ≡ Status.ReadFault) }
    ensures write_fault { result ≡ Status.WriteFault
        → Rose (K.sink output.old).faults (K.sink output.new).faults }
    ensures stood { DisksStand (O.failing_loans outside.old) (O.outside outside.old)
        (O.outside outside.new) → ¬ (result ≡ Status.DiskFault) }
    ensures files { KeepsFiles (O.outside outside.old) (O.outside outside.new) }
    ensures doors { KeepsDoors (O.outside outside.old) (O.outside outside.new) }
{
    let Ok(name) = journal_name(alloc, folder) else {
        return Status::NoMemory;
    };
    outside.only_look();
    let mut disk = match outside.disk(alloc, &name) {
        Ok(disk) => disk,
        Err(why) => return Status::of_fetch(why),
    };
    let status = replay_over(rt, alloc, stories, &mut disk, outside, output);
    outside.put_back(&name, disk);
    status
}
