//! A desk: one session, kept warm, that many threads have in turn (own).

ghost use Rattle.std.specs.Prelude.{◌≡◌, ◌≤◌, ◌<◌, length, IsTrue, IfOk, OnOk, OnErr};
ghost use Rattle.std.specs.Prelude.{MatchOption, ⊤, ◌+◌, true, false, max, ℕ, [], Some};
ghost use Rattle.disk_model.specs.Disk.{Rose};
ghost use Rattle.disk_model.specs.Work.{LeavesOnly, OnlyLooks};
ghost use Rattle.turn_cell.specs.Passes.{seen};
ghost use Rattle.gate_journal.specs.Log.{rows_kept};
ghost use Rattle.gate_journal.specs.Rows.{commands_of};
ghost use Rattle.story_run.specs.World.{WorldState};
ghost use Rattle.session_core.specs.Answer.{shown_number};
ghost use Rattle.session_core.specs.Checks.{is_other_story};
ghost use Rattle.session_core.specs.History.{last_of};
ghost use Rattle.session_core.specs.Turning.{commands_in};
ghost use Rattle.snap_store.specs.File.{area_given, newest_area};
ghost use Rattle.session_saves.specs.Agreement.{last_row};
ghost use Rattle.session_saves.specs.Game.{inputs_of, turns_after};
ghost use Rattle.session_saves.specs.Keeping.{MayStandMeanwhile};
ghost use Rattle.session_saves.specs.Warming.{count_in};
ghost use Rattle.session_desk.specs.Desk.{desk_emptied, game, HoldsOwnWorld, is_cold, is_to_run};
ghost use Rattle.session_desk.specs.Desk.{last_show, ran};
ghost use Rattle.session_desk.specs.Keeping.{snapshot_due, KeepsSnapshot, IsWarmed};
ghost use Rattle.session_desk.specs.Shared.{as_opened, desk_tag, IsPassOf, IsShared, Rests};
ghost use Rattle.session_desk.specs.Sound.{AreKeptUp, EndsStore, IsSoundDesk, open_rows};
ghost use Rattle.session_desk.specs.Verdict.{verdict};
ghost use Rattle.session_desk.specs.declared.held.Held.TheVariants.{Current};
ghost use Rattle.session_desk.specs.declared.verdict.Verdict.TheVariants.{Cold};

use crate::game::{begins_of, game_at, inputs_at};
use crate::held::{Held, ran};
use crate::rows::{commands_of, last_open};
use crate::verdict::{Verdict, verdict_of};
use disk_model::Disk;
use gate_journal::{Command, Journal, Row};
use line_words::Request;
use mark::Mark;
use session_core::{Entry, is_in_use, shown_number};
use session_saves::{Missed, Saves};
use snap_store::Store;
use std::alloc::{AllocError, Global};
use std::marker::Model;
use std::mem;
use std::snapshot::Snapshot;
use std::sync::ledger::Ledger;
use story_run::{Steps, Story};
use turn_cell::{Pass, Told};

mod commit;
mod mark;
mod prepare;
mod turn;

/// One session of a host that many share: the commands that it accepted with who made each, a world
/// where it is warm, a pass of the journal's cell, and its snapshots. It is cold where the session
/// is in use and its world isn't held. It lies in a cell of its own.
#[derive(Drop)]
pub struct Desk<'i, D: Disk> {
    alloc: Global,
    session: u8,
    stories: &'i [Story<'i>],
    budget: u64,
    commands: Vec<Command>,
    // where the last game begins
    begins: usize,
    held: Held<'i>,
    marks: Vec<Mark>,
    pass: Pass<Journal<D>>,
    saves: Saves<D>,
    // the place of the session's last OPEN row
    place: Option<u64>,
    // the store and the pass as they were handed in
    store: Snapshot<Store<D>>,
    first: Snapshot<Pass<Journal<D>>>,
}

impl<'i, D: Disk> Model for Desk<'i, D> {
    ghost use Rattle.session_desk.specs.Shared.{SharedState};

    ghost Value = { SharedState D };

    ghost use Rattle.session_desk.specs.Inside.{IsWholeInside, state_of};

    ghost view = { state_of };

    ghost invariant = { IsWholeInside D.Disk };
}

impl<'i, D: Disk> Told for Desk<'i, D> {
    ghost use Rattle.session_core.specs.Turning.{entry_by};
    ghost use Rattle.session_desk.specs.Shared.{DeskTag, desk_tag};

    type Entry = Entry;

    ghost Tag = { DeskTag D };

    ghost entries = { λ d. d.history };

    ghost by = { entry_by };

    ghost tag = { desk_tag };

    fn count(&self) -> u64 {
        self.marks.len() as u64
    }
}

impl<'i, D: Disk + Drop> Desk<'i, D> {
    /// The desk of a session, below 64, with the commands of its rows, at most 8,192, as its
    /// history; its world isn't held. The rows are all that the pass has seen of the journal, and
    /// the store is that of the session's snapshots. The budget is that of a turn, in ticks, for
    /// whoever reads requests to open the session.
    pub fn open(
        alloc: Global,
        session: u8,
        stories: &'i [Story<'i>],
        budget: u64,
        rows: &[Row],
        pass: Pass<Journal<D>>,
        store: Store<D>,
    ) -> Result<Desk<'i, D>, AllocError>
        requires session { session < 64 }
        requires within { length (commands_of rows.now session) ≤ 8192 }
        requires pass { IsPassOf session pass }
        requires rows { seen pass ≡ rows_kept rows.now }
        ensures value { IfOk result (λ desk. desk
            ≡ as_opened session stories.now budget rows.now pass store) }
    {
        let commands = commands_of(alloc, rows, session)?;
        let begins = begins_of(&commands);
        let marks = vec![in alloc; Mark::Accepted { by: 0 }; commands.len()]?;
        let place = last_open(rows, session);
        // with the header comes what holds of every store's images
        let _made = store.is_made();
        let given = Snapshot::of(&store);
        let first = Snapshot::of(&pass);
        let saves = Saves::open(store);
        Ok(Desk {
            alloc,
            session,
            stories,
            budget,
            commands,
            begins,
            held: Held::Nothing,
            marks,
            pass,
            saves,
            place,
            store: given,
            first,
        })
    }

    /// All commands that the session number ever accepted, oldest first.
    pub fn commands(&self) -> &[Command]
        ensures value { result.now ≡ self.now.desk.commands }
        ensures within { length result.now ≤ 8192 }
        ensures history { commands_in self.now.history ≡ self.now.desk.commands }
    {
        self.commands.as_slice()
    }

    /// The budget of a turn, in ticks, with which the session is to be opened.
    pub fn budget(&self) -> u64
        ensures value { result ≡ self.now.desk.budget }
    {
        self.budget
    }

    /// What the request will be answered, by the world that is held. It takes no memory.
    pub fn check(&self, request: &Request) -> Verdict
        ensures value { result ≡ verdict self.now.desk request.now }
        ensures cold { result ≡ Cold → IsTrue (is_cold self.now.desk) }

        // a sound desk holds the session's own world
        ensures own { IsSoundDesk D.Disk (desk_tag self.now)
            → HoldsOwnWorld self.now.desk.stories (game self.now.desk) self.now.desk.held }
    {
        let commands = self.commands.as_slice();
        let game = game_at(commands, self.begins);
        let now = self.held.now();
        verdict_of(self.alloc, self.stories, commands, game, now, request)
    }

    /// Plays a cold session from the newest area of its last OPEN row on, or from the start. One
    /// step is one turn.
    pub fn warm<L: Ledger>(&mut self, alloc: Global, steps: &mut Steps<L>) -> Result<(), AllocError>
        requires cold { IsTrue (is_cold self.old.desk) }
        requires story { is_other_story self.old.desk.stories (game self.old.desk) ≡ false }
        ensures found { OnOk result
            (IsWarmed D.Disk self.old self.new steps.old steps.new) }

        // on a sound desk it is the session's own world, and the inputs behind the newest area are
        // all that is played
        ensures own { IsSoundDesk D.Disk (desk_tag self.old)
            → HoldsOwnWorld self.new.desk.stories (game self.new.desk) self.new.desk.held }
        ensures cost { (place : ℕ)
            → IsSoundDesk D.Disk (desk_tag self.old)
            → (Rose (D.faults self.old.saves.store.disk) (D.faults self.new.saves.store.disk)
            → ⊥)
            → last_row (open_rows self.old) ≡ Some place
            → OnOk result (steps.new ≡ steps.old
            + turns_after self.old.desk.stories (game self.old.desk)
            (count_in (area_given (newest_area place (length (inputs_of (game self.old.desk)))
            (D.seen self.old.saves.store.disk))))) }

        ensures err { OnErr result (self.new.desk ≡ self.old.desk) }
        ensures rests { Rests self.old self.new }
        ensures counts { D.faults self.old.saves.store.disk ≤ D.faults self.new.saves.store.disk }
        ensures looks { OnlyLooks D.Disk self.old.saves.store.disk self.new.saves.store.disk }
        ensures slots { (self.new.saves.store.slots ≡ self.old.saves.store.slots)
            × (self.new.saves.missed ≡ self.old.saves.missed)
            × (self.new.saves.last ≡ self.old.saves.last) }
    {
        let place = self.place.unwrap();
        let game = game_at(&self.commands, self.begins);
        let world = self.saves.warm(alloc, self.stories, place, game, steps)?;
        self.held = Held::Current(world.unwrap());
        Ok(())
    }

    /// Gives the story the command that was just committed: the turn of the world that was set
    /// aside. An OPEN begins the story, and a CLOSE does nothing. Where memory runs out the world
    /// is gone.
    pub fn run(&mut self, alloc: Global) -> Result<(), AllocError>
        requires { IsTrue (is_to_run self.old.desk.held (last_of (game self.old.desk))) }
        ensures ok { OnOk result (self.new ≡ record self.old { desk = ran self.old.desk }) }
        ensures err { OnErr result
            (self.new ≡ record self.old { desk = desk_emptied self.old.desk }) }
    {
        let held = mem::replace(&mut self.held, Held::Nothing);
        let game = game_at(&self.commands, self.begins);
        let now = ran(alloc, self.stories, game, held)?;
        self.held = now;
        Ok(())
    }

    /// The desk is warm, its session is in use, and the inputs since the last OPEN are a positive
    /// multiple of 16, whose snapshot is neither stored nor counted among those that were missed.
    pub fn due(&self) -> bool
        ensures value { result ≡ snapshot_due self.now }
    {
        match (self.place, &self.held) {
            (Some(place), Held::Current(_)) => {
                self.saves
                    .is_due(place, inputs_at(&self.commands, self.begins))
            }
            _ => false,
        }
    }

    /// Puts the snapshot into the store where it is due. What prevents it is counted.
    pub fn keep(&mut self, alloc: Global)
        ensures idle { snapshot_due self.old ≡ false → self.new ≡ self.old }
        ensures ok { snapshot_due self.old ≡ true
            → KeepsSnapshot D.Disk self.old self.new }
        ensures due { snapshot_due self.new ≡ false }
        ensures kept { self.new ≡ record self.old { saves = self.new.saves } }

        // what a stop may leave meanwhile, and after it
        ensures crash { (world : WorldState) (place : ℕ)
            → self.old.desk.held ≡ Current world
            → last_row (open_rows self.old) ≡ Some place
            → IsTrue (D.tells self.old.saves.store.disk)
            → LeavesOnly D.Disk self.old.saves.store.disk self.new.saves.store.disk
            (MayStandMeanwhile D.seen world place (length (inputs_of (game self.old.desk)))
            self.old.saves.store) }

        ensures counts { D.faults self.old.saves.store.disk ≤ D.faults self.new.saves.store.disk }
        ensures reach { D.reach self.new.saves.store.disk
            ≤ max (D.reach self.old.saves.store.disk) 16781344 }
    {
        let (Some(place), Held::Current(world)) = (self.place, &self.held) else {
            return;
        };
        let count = inputs_at(&self.commands, self.begins);
        self.saves.keep(alloc, world, place, count);
    }

    /// How many snapshots were missed, by cause.
    pub fn missed(&self) -> Missed
        ensures value { result ≡ self.now.saves.missed }
        ensures kept_up { AreKeptUp self.now }
    {
        self.saves.missed()
    }

    /// The lines of the last show: `E closed` once the session was closed, and none before it was
    /// first opened. None where the desk is cold.
    pub fn last(&self) -> Option<&[u8]>
        ensures cold { MatchOption result (IsTrue (is_cold self.now.desk))
            (λ show. is_cold self.now.desk ≡ false) }
        ensures value { MatchOption result ⊤ (λ show. show.now ≡ last_show self.now.desk) }
    {
        let game = game_at(&self.commands, self.begins);
        match &self.held {
            Held::Current(world) => Some(world.last()),
            _ if is_in_use(game) => None,
            _ if game.is_empty() => Some(&[]),
            _ => Some(b"E closed\n"),
        }
    }

    /// The number in the show that the request gets: 0 for OPEN, that of the last command for LAST,
    /// else the request's own.
    pub fn number(&self, request: &Request) -> u32
        ensures value { result ≡ shown_number (game self.now.desk) request.now }
    {
        shown_number(game_at(&self.commands, self.begins), request)
    }

    /// Its pass and its store. What the pass has seen of the journal has the history's entries, one
    /// for one.
    pub fn into_parts(self) -> (Pass<Journal<D>>, Store<D>)
        ensures value { result ≡ (self.entry.pass, self.entry.saves.store) }
        ensures shared { IsShared self.entry }
        ensures store { EndsStore D.Disk self.entry }
    {
        let Desk {
            alloc: _,
            session: _,
            stories: _,
            budget: _,
            commands: _,
            begins: _,
            held: _,
            marks: _,
            pass,
            saves,
            place: _,
            store: _,
            first: _,
        } = self;
        let store = saves.into_store();
        // with the header comes what holds of every store's images
        let _made = store.is_made();
        (pass, store)
    }
}
