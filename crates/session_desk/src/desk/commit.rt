//! A command that a desk keeps in the journal (own).

ghost use Rattle.std.specs.Prelude.{◌≡◌, ◌<◌, ◌++◌, ◌∷◌, [], IsTrue, IsSome, IfErr, IfOk, OnOk};
ghost use Rattle.std.specs.Prelude.{OnErr, Some, false, length, vec_len, vec_capacity};
ghost use Rattle.turn_cell.specs.Passes.{IsOf, seen};
ghost use Rattle.gate_journal.specs.Command.{HasDigest, IsCommand};
ghost use Rattle.gate_journal.specs.Log.{rows_of};
ghost use Rattle.gate_journal.specs.Rows.{MayStand, journal_bytes};
ghost use Rattle.gate_journal.specs.declared.command.Command.{Command};
ghost use Rattle.session_core.specs.Checks.{command_of};
ghost use Rattle.session_core.specs.History.{last_of};
ghost use Rattle.session_desk.specs.Commit.{Extends, IsInRange, RefusalLeaves};
ghost use Rattle.session_desk.specs.Commit.{MayStandNext, Writes};
ghost use Rattle.session_desk.specs.Desk.{aside, BeginsAt, game, is_to_run};
ghost use Rattle.session_desk.specs.Keeping.{snapshot_due};
ghost use Rattle.session_desk.specs.Marks.{marks_by};
ghost use Rattle.session_desk.specs.Opens.{row_behind};
ghost use Rattle.session_desk.specs.Shared.{desk_tag, GoesOn, HasRisen, IsPassOf, LeavesHistory};
ghost use Rattle.session_desk.specs.Shared.{met_by, TakesEntry, unplaced};
ghost use Rattle.session_desk.specs.Verdict.{verdict};
ghost use Rattle.session_desk.specs.declared.verdict.Verdict.TheVariants.{Fresh};

use super::Desk;
use super::mark::Mark;
use crate::game::begins_with;
use crate::held::{Held, aside};
use crate::refused::Refused;
use disk_model::Disk;
use gate_journal::{Command, Journal};
use line_words::Request;
use session_core::command_of;
use std::alloc::{AllocError, Global};
use std::mem;
use std::sync::Wait;
use story_run::Story;
use turn_cell::{Cell, Pass};

/// Every digest has 32 bytes.
fn is_whole(_digest: [u8; 32])
    ensures { length _digest ≡ 32 }
{}

/// So has that of every OPEN.
fn has_digest(command: &Command)
    ensures { HasDigest command.now }
{
    if let Command::Open { digest, .. } = command {
        is_whole(*digest);
    }
}

/// The command that the request asks for, and the room to take it down.
fn asked(
    alloc: Global,
    stories: &[Story],
    commands: &mut Vec<Command>,
    marks: &mut Vec<Mark>,
    request: &Request,
) -> Result<Command, AllocError>
    requires some { IsSome (command_of stories.now request.now) }
    requires ranges { IsInRange request.now }
    ensures value { IfOk result (λ command. command_of stories.now request.now ≡ Some command) }
    ensures ranges { IfOk result (λ command. IsCommand command) }
    ensures room { OnOk result ((vec_len commands.new < vec_capacity commands.new)
        × (vec_len marks.new < vec_capacity marks.new)) }
    ensures kept { (commands.new.items ≡ commands.old.items)
        × (marks.new.items ≡ marks.old.items) }
{
    commands.reserve(1)?;
    marks.reserve(1)?;
    let command = command_of(alloc, stories, request)?.unwrap();
    has_digest(&command);
    Ok(command)
}

/// Takes the memory of a row, and then writes it; the answer is its place.
fn write_down<D: Disk>(
    alloc: Global,
    journal: &mut Journal<D>,
    session: u8,
    command: &Command,
) -> Result<u64, Refused>
    requires { MayStand (rows_of journal.old.entries) session command.now }
    ensures ok { OnOk result (Extends session command.now journal.old journal.new) }
    ensures place { IfOk result (λ place.
        place ≡ length (journal_bytes (rows_of journal.old.entries))) }
    ensures err { IfErr result (λ why.
        RefusalLeaves D.faults session command.now journal.old journal.new why) }
    ensures kept { journal.new.opening ≡ journal.old.opening }
{
    let Ok(()) = journal.reserve(alloc) else {
        return Err(Refused::NoMemory);
    };
    match journal.append(session, command) {
        Ok(place) => Ok(place),
        Err(fault) => Err(Refused::DiskFault(fault)),
    }
}

/// The same in a turn of the journal's cell, by a pass of the session.
fn write_in_turn<D: Disk + Drop, R: Wait>(
    rt: &R,
    alloc: Global,
    pass: &mut Pass<Journal<D>>,
    cell: &Cell<Journal<D>>,
    session: u8,
    command: &Command,
) -> Result<u64, Refused>
    requires cell { IsOf cell.now pass.old }
    requires pass { IsPassOf session pass.old }
    requires stands { MayStandNext (seen pass.old) session command.now }
    ensures value { Writes session command.now result (seen pass.old) (seen pass.new) }
    ensures rose { IfErr result HasRisen }
    ensures pass { IsPassOf session pass.new }
    ensures kept { IsOf cell.now pass.new }
{
    let mut journal = cell.enter(rt, pass);
    // with the count comes what holds of every journal
    let _count = journal.row_count();
    let done = write_down(alloc, &mut journal, session, command);
    cell.leave(pass, journal);
    done
}

/// Takes a command down where its row was written, and there is room for it.
fn take_down(
    commands: &mut Vec<Command>,
    begins: &mut usize,
    held: &mut Held<'_>,
    command: Command,
    done: &Result<u64, Refused>,
)
    requires room { vec_len commands.old < vec_capacity commands.old }
    requires begins { BeginsAt begins.old commands.old.items }
    ensures ok { OnOk done.now ((commands.new.items ≡ commands.old.items ++ command ∷ [])
        × (held.new ≡ aside command held.old)) }
    ensures err { OnErr done.now ((commands.new.items ≡ commands.old.items)
        × (held.new ≡ held.old)) }
    ensures begins { BeginsAt begins.new commands.new.items }
{
    if done.is_ok() {
        let before = mem::replace(held, Held::Nothing);
        *held = aside(&command, before);
        *begins = begins_with(commands, *begins, &command);
        let _ = commands.push(command);
    }
}

/// Takes down who made the entry and the place of an OPEN row; the answer is without that place.
fn note(
    marks: &mut Vec<Mark>,
    place: &mut Option<u64>,
    by: u64,
    request: &Request,
    done: Result<u64, Refused>,
) -> Result<(), Refused>
    requires room { vec_len marks.old < vec_capacity marks.old }
    ensures value { result ≡ unplaced done }
    ensures marks { marks.new.items ≡ marks.old.items ++ marks_by by done }
    ensures place { place.new ≡ row_behind place.old request.now done }
{
    match done {
        Ok(row) => {
            marks.push_reserved(Mark::Accepted { by });
            if matches!(request, Request::Open { .. }) {
                *place = Some(row);
            }
            Ok(())
        }
        Err(Refused::DiskFault(fault)) => {
            marks.push_reserved(Mark::Faulted {
                by,
                from: fault.from,
                to: fault.to,
            });
            Err(Refused::DiskFault(fault))
        }
        Err(Refused::NoMemory) => Err(Refused::NoMemory),
    }
}

impl<'i, D: Disk + Drop> Desk<'i, D> {
    /// Makes the session accept the command that a fresh request asks for, by a row in the journal,
    /// where no snapshot is due; the world is set aside for `run`. It takes its memory before it
    /// writes, waits for the journal's cell, and has that for the append alone. `by` is the number
    /// of the pass of the desk's own cell with which the turn is made.
    pub fn commit<R: Wait>(
        &mut self,
        rt: &R,
        alloc: Global,
        by: u64,
        journal: &Cell<Journal<D>>,
        request: &Request,
    ) -> Result<(), Refused>
        requires cell { IsOf journal.now self.old.pass }
        requires fresh { verdict self.old.desk request.now ≡ Fresh }
        requires due { snapshot_due self.old ≡ false }
        requires ranges { IsInRange request.now }
        ensures ok { OnOk result (TakesEntry request.now by self.old self.new) }
        ensures runs { OnOk result
            (IsTrue (is_to_run self.new.desk.held (last_of (game self.new.desk)))) }
        ensures err { OnErr result (self.new.desk ≡ self.old.desk) }
        ensures cause { IfErr result (LeavesHistory by self.old.history self.new.history) }
        ensures rose { IfErr result HasRisen }
        ensures journal { (command : Command)
            → command_of self.old.desk.stories request.now ≡ Some command
            → GoesOn self.old.desk.session (Some command) (met_by result) (seen self.old.pass)
            (seen self.new.pass) }
        ensures saves { self.new.saves ≡ self.old.saves }
        ensures kept { desk_tag self.new ≡ desk_tag self.old }
    {
        let Ok(command) = asked(
            alloc,
            self.stories,
            &mut self.commands,
            &mut self.marks,
            request,
        ) else {
            return Err(Refused::NoMemory);
        };
        // with the counts comes what holds of all snapshots
        let _missed = self.saves.missed();
        let done = write_in_turn(rt, alloc, &mut self.pass, journal, self.session, &command);
        take_down(
            &mut self.commands,
            &mut self.begins,
            &mut self.held,
            command,
            &done,
        );
        note(&mut self.marks, &mut self.place, by, request, done)
    }
}
