//! One turn on a session's cell (own).
ghost use Rattle.std.specs.Prelude.{◌≡◌, ◌<◌, false, Option};
ghost use Rattle.turn_cell.specs.Passes.{IsOf, IsOutside, KeepsNumbers, made, seen, tag_of};
ghost use Rattle.story_run.specs.World.{WorldState};
ghost use Rattle.session_core.specs.Checks.{is_watch, session_of};
ghost use Rattle.line_words.specs.declared.reply.No.TheVariants as no;
ghost use Rattle.line_words.specs.declared.reply.Reply.TheVariants as replies;
ghost use Rattle.line_words.specs.declared.request.Request.TheVariants as requests;
ghost use Rattle.session_core.specs.declared.entry.Outcome.TheVariants as outcomes;
ghost use Rattle.session_desk.specs.Shared.{desk_tag};
ghost use Rattle.host_serve.specs.Reading.{LineIsReadAs};
ghost use Rattle.host_serve.specs.Holders.{holder_of};
ghost use Rattle.host_serve.specs.Hosts.{IsSound, IsTagOf};
ghost use Rattle.host_serve.specs.Told.{turn_from};
ghost use Rattle.host_serve.specs.Chain.{TurnsIn};

use crate::answer::Answer;
use crate::host::Host;
use crate::mark::Mark;
use crate::pause::Pause;
use disk_model::Disk;
use line_words::{No, Reply, Request};
use session_core::{Outcome, copies_of, session_of};
use session_desk::{Desk, Turned};
use std::alloc::Global;
use std::sync::Wait;
use story_watch::watch;
use turn_cell::{Cell, Pass, Told};

/// The turn of a player's line, which is read as this request, on the session of this cell.
fn play_in<'i, D: Disk + Drop, R: Wait, P: Pause>(
    rt: &R,
    alloc: Global,
    host: &Host<'i, D>,
    cell: &Cell<Desk<'i, D>>,
    pass: &mut Pass<Desk<'i, D>>,
    pause: &P,
    _line: &[u8],
    request: &Request,
) -> Answer
    requires cell { IsOf cell.now pass.old × IsOutside pass.old }
    requires session { session_of request.now < 64 }
    requires tag { IsTagOf host.now (session_of request.now) (tag_of desk_tag pass.old) }
    requires read { LineIsReadAs host.now.budget _line.now request.now }
    requires plays { is_watch request.now ≡ false }
    ensures value { (world : Option WorldState)
        × TurnsIn host.now.stories.now host.now.budget (IsSound D.Disk host.now)
        (holder_of pass.old) (seen pass.old) (turn_from _line.now world result) (seen pass.new) }
    ensures session { result.mark.session ≡ session_of request.now }
    ensures kept { IsOf cell.now pass.new × IsOutside pass.new × KeepsNumbers pass.old pass.new
        × (made pass.new ≡ made pass.old) }
{
    let by = pass.number();
    let session = session_of(request) as u8;
    let mut desk = cell.enter(rt, pass);
    let length = desk.count();
    let Turned { reply, outcome } = desk.answer(rt, alloc, by, &host.journal, request);
    pause.in_turn(session, pass);
    cell.leave(pass, desk);
    Answer {
        reply,
        outcome,
        mark: Mark { session, length },
    }
}

/// The answer to a line for which no memory was found.
fn out_of_memory(mark: Mark) -> Answer
    ensures reply { result.reply ≡ replies.No no.NoMemory }
    ensures outcome { result.outcome ≡ outcomes.OutOfMemory }
    ensures mark { result.mark ≡ mark }
{
    Answer {
        reply: Reply::No(No::NoMemory),
        outcome: Outcome::OutOfMemory,
        mark,
    }
}

/// The turn of a spectator's line. The session's cell is his while its commands are copied; the
/// game is played once others may have it.
fn watch_in<'i, D: Disk + Drop, R: Wait, P: Pause>(
    rt: &R,
    alloc: Global,
    host: &Host<'i, D>,
    cell: &Cell<Desk<'i, D>>,
    pass: &mut Pass<Desk<'i, D>>,
    pause: &P,
    _line: &[u8],
    s: u32,
    word: &[u8; 16],
    from: u32,
) -> Answer
    requires cell { IsOf cell.now pass.old × IsOutside pass.old }
    requires session { s < 64 }
    requires tag { IsTagOf host.now s (tag_of desk_tag pass.old) }
    requires read { LineIsReadAs host.now.budget _line.now (requests.Watch s word.now from) }
    ensures value { (world : Option WorldState)
        × TurnsIn host.now.stories.now host.now.budget (IsSound D.Disk host.now)
        (holder_of pass.old) (seen pass.old) (turn_from _line.now world result) (seen pass.new) }
    ensures session { result.mark.session ≡ s }
    ensures kept { IsOf cell.now pass.new × IsOutside pass.new × KeepsNumbers pass.old pass.new
        × (made pass.new ≡ made pass.old) }
{
    let session = s as u8;
    let desk = cell.enter(rt, pass);
    let mark = Mark {
        session,
        length: desk.count(),
    };
    let copies = copies_of(alloc, desk.commands());
    pause.in_turn(mark.session, pass);
    cell.leave(pass, desk);
    let Ok(commands) = copies else {
        return out_of_memory(mark);
    };
    match watch(alloc, host.stories, &commands, s, word, from) {
        Ok(reply) => Answer {
            reply,
            outcome: Outcome::Answered,
            mark,
        },
        Err(_) => out_of_memory(mark),
    }
}

/// The turn of a line, which is read as this request, on the session of this cell.
pub fn turn_in<'i, D: Disk + Drop, R: Wait, P: Pause>(
    rt: &R,
    alloc: Global,
    host: &Host<'i, D>,
    cell: &Cell<Desk<'i, D>>,
    pass: &mut Pass<Desk<'i, D>>,
    pause: &P,
    line: &[u8],
    request: &Request,
) -> Answer
    requires cell { IsOf cell.now pass.old × IsOutside pass.old }
    requires session { session_of request.now < 64 }
    requires tag { IsTagOf host.now (session_of request.now) (tag_of desk_tag pass.old) }
    requires read { LineIsReadAs host.now.budget line.now request.now }
    ensures value { (world : Option WorldState)
        × TurnsIn host.now.stories.now host.now.budget (IsSound D.Disk host.now)
        (holder_of pass.old) (seen pass.old) (turn_from line.now world result) (seen pass.new) }
    ensures session { result.mark.session ≡ session_of request.now }
    ensures kept { IsOf cell.now pass.new × IsOutside pass.new × KeepsNumbers pass.old pass.new
        × (made pass.new ≡ made pass.old) }
{
    match request {
        Request::Watch { s, word, from } => {
            watch_in(rt, alloc, host, cell, pass, pause, line, *s, word, *from)
        }
        _ => play_in(rt, alloc, host, cell, pass, pause, line, request),
    }
}
