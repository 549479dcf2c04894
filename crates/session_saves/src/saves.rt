//! A session's snapshots (own).

ghost use Rattle.std.specs.Prelude.{◌≡◌, ◌⊎◌, ◌+◌, ◌≤◌, ℕ, IsTrue, true, false};
ghost use Rattle.std.specs.Prelude.{List, length, max, None, Some, IfOk, OnOk};
ghost use Rattle.std.specs.List.{Contains};
ghost use Rattle.disk_model.specs.Disk.{Rose};
ghost use Rattle.disk_model.specs.Work.{EachImage, LeavesOnly, OnlyLooks, SameDisk};
ghost use Rattle.gate_journal.specs.declared.command.Command.{Command};
ghost use Rattle.story_run.specs.declared.story.Story.{Story};
ghost use Rattle.session_core.specs.Checks.{is_other_story};
ghost use Rattle.session_core.specs.History.{world_of};

use crate::due::{falls_due, is_at};
use crate::game::{inputs_of, opened};
use crate::missed::Missed;
use crate::snapshot::put;
use crate::warming::{found, play};
use disk_model::Disk;
use gate_journal::Command;
use snap_store::Store;
use std::alloc::{AllocError, Global};
use std::marker::Model;
use std::sync::ledger::Ledger;
use story_run::{Steps, Story, World};
use story_snap::{has_one_spelling, has_one_world};

/// Where a snapshot stands in a session: the place of its OPEN row, and how many inputs came since.
#[derive(Clone, Copy)]
pub struct Point {
    pub place: u64,
    pub count: u32,
}

/// The snapshots of one session: its store, and what was missed.
#[derive(Drop)]
pub struct Saves<D: Disk> {
    store: Store<D>,
    missed: Missed,
    last: Option<Point>,
}

impl<D: Disk> Model for Saves<D> {
    ghost use Rattle.session_saves.specs.Saves.{IsMissCounted, SavesState};

    ghost Value = { SavesState D };

    ghost view = { λ s. record { store = s.store; missed = s.missed; last = s.last } };

    ghost invariant = { λ s. IsMissCounted s.missed s.last };
}

impl<D: Disk> Saves<D> {
    ghost use Rattle.snap_store.specs.File.{newest_area, area_given};
    ghost use Rattle.snap_store.specs.Store.{IsImageOf, store_area};
    ghost use Rattle.snap_store.specs.declared.side.Side.{Side};
    ghost use Rattle.session_saves.specs.Agreement.{IsAgreed, last_row};
    ghost use Rattle.session_saves.specs.Game.{inputs_of, turns_after};
    ghost use Rattle.session_saves.specs.Keeping.{AddsOnly, CountsExactly, IsMissed, IsPut};
    ghost use Rattle.session_saves.specs.Keeping.{KeepsOpen, MayStandMeanwhile};
    ghost use Rattle.session_saves.specs.Saves.{HasSince, IsMissCounted, IsKeptUp, is_due};
    ghost use Rattle.session_saves.specs.Saves.{saves_of_opened_store};
    ghost use Rattle.session_saves.specs.Warming.{WarmsFrom, count_in};

    /// The snapshots of a store, of which none was missed.
    pub fn open(store: Store<D>) -> Saves<D>
        ensures value { result ≡ saves_of_opened_store store }
    {
        Saves {
            store,
            missed: Missed::nothing(),
            last: None,
        }
    }

    /// How many puts were prevented, by cause.
    pub fn missed(&self) -> Missed
        ensures value { result ≡ self.now.missed }
        ensures counted { IsMissCounted self.now.missed self.now.last }
    {
        self.missed
    }

    /// A snapshot of this OPEN row after so many inputs is due: their number is a positive multiple
    /// of 16, and that snapshot is neither stored nor counted among those that were missed.
    #[tactic(auto, unfolding(crate::specs::Saves::due_in))]
    pub fn is_due(&self, place: u64, count: u32) -> bool
        ensures value { result ≡ is_due self.now place count }
        ensures images { EachImage D.Disk self.now.store.disk (IsImageOf D.seen self.now.store) }
    {
        let is_stored = self.store.is_stored(place, count);
        falls_due(count) && !is_stored && !is_at(&self.last, place, count)
    }

    /// Puts the snapshot of a session's world where it is due. What prevents it is counted.
    pub fn keep(&mut self, alloc: Global, world: &World<'_>, place: u64, count: u32)
        ensures idle { is_due self.old place count ≡ false → self.new ≡ self.old }
        ensures ok { is_due self.old place count ≡ true
            → IsPut D.Disk world.now place count self.old self.new
            ⊎ IsMissed D.faults world.now place count self.old self.new }
        ensures exact { is_due self.old place count ≡ true
            → CountsExactly world.now place count self.old self.new }
        ensures counts { D.faults self.old.store.disk ≤ D.faults self.new.store.disk }
        ensures due { is_due self.new place count ≡ false }
        ensures kept_up { IsKeptUp place count self.old.store.slots self.old.missed
            → IsKeptUp place count self.new.store.slots self.new.missed }

        // where the world is that of the session, its areas stay in agreement with its commands
        ensures areas { IsTrue (D.tells self.old.store.disk)
            → AddsOnly D.seen world.now place count self.old.store self.new.store }
        ensures agreed { (stories : List Story) (rows : List ℕ) (game : List Command)
            → IsTrue (D.tells self.old.store.disk)
            → last_row rows ≡ Some place
            → length (inputs_of game) ≡ count
            → world_of stories game ≡ Some world.now
            → IsAgreed D.seen stories rows game self.old.store
            → IsAgreed D.seen stories rows game self.new.store }

        // what a stop may leave meanwhile, and after it
        ensures crash { IsTrue (D.tells self.old.store.disk)
            → LeavesOnly D.Disk self.old.store.disk self.new.store.disk
            (MayStandMeanwhile D.seen world.now place count self.old.store) }
        ensures images { EachImage D.Disk self.new.store.disk (IsImageOf D.seen self.new.store) }

        // an open area of the last OPEN row is never lost
        ensures newest { (stories : List Story) (rows : List ℕ) (game : List Command) (least : ℕ)
            → IsTrue (D.tells self.old.store.disk)
            → ((row : ℕ) → Contains rows row → row ≤ place)
            → IsAgreed D.seen stories rows game self.old.store
            → HasSince place least self.old.store.slots
            → KeepsOpen D.Disk place least self.old.store self.new.store }

        ensures reach { D.reach self.new.store.disk ≤ max (D.reach self.old.store.disk) 16781344 }
        ensures kept { SameDisk D.Disk self.old.store.disk self.new.store.disk
            × (self.new.store.made ≡ self.old.store.made) }
    {
        // so some bytes of the world are too many for a store exactly where its own are
        has_one_spelling();
        if self.is_due(place, count) {
            match put(alloc, &mut self.store, world, place, count) {
                Ok(()) => {}
                Err(cause) => {
                    self.missed.count(cause);
                    self.last = Some(Point { place, count });
                }
            }
        }
    }

    /// The world that a game has come to, from the newest area of its OPEN row on, or from the
    /// start where there is none that can be read or where no world has its bytes. Each turn is one
    /// step. None where the game's story isn't there.
    pub fn warm<'i, L: Ledger>(
        &mut self,
        alloc: Global,
        stories: &[Story<'i>],
        place: u64,
        game: &[Command],
        steps: &mut Steps<L>,
    ) -> Result<Option<World<'i>>, AllocError>
        requires { length game.now ≤ 8192 }

        // where the areas agree with the commands, it is the session's world, and the inputs behind
        // the newest area are all that is played
        ensures value { (rows : List ℕ)
            → IsTrue (D.tells self.old.store.disk)
            → last_row rows ≡ Some place
            → is_other_story stories.now game.now ≡ false
            → IsAgreed D.seen stories.now rows game.now self.old.store
            → IfOk result (λ world. world ≡ world_of stories.now game.now) }
        ensures cost { (rows : List ℕ)
            → IsTrue (D.tells self.old.store.disk)
            → (Rose (D.faults self.old.store.disk) (D.faults self.new.store.disk) → ⊥)
            → last_row rows ≡ Some place
            → is_other_story stories.now game.now ≡ false
            → IsAgreed D.seen stories.now rows game.now self.old.store
            → OnOk result (steps.new ≡ steps.old + turns_after stories.now game.now
            (count_in (area_given (newest_area place (length (inputs_of game.now))
            (D.seen self.old.store.disk))))) }

        // whatever the areas are
        ensures found { IfOk result (λ world. WarmsFrom (D.tells self.old.store.disk)
            (D.seen self.old.store.disk) place
            (D.faults self.old.store.disk) (D.faults self.new.store.disk)
            stories.now game.now world steps.old steps.new) }

        ensures counts { D.faults self.old.store.disk ≤ D.faults self.new.store.disk }
        ensures areas { (side : Side) → IsTrue (D.tells self.old.store.disk)
            → store_area D.seen self.new.store side ≡ store_area D.seen self.old.store side }
        ensures images { EachImage D.Disk self.new.store.disk (IsImageOf D.seen self.new.store) }
        ensures kept { OnlyLooks D.Disk self.old.store.disk self.new.store.disk }
        ensures slots { (self.new.store.made ≡ self.old.store.made)
            × (self.new.store.slots ≡ self.old.store.slots)
            × (self.new.missed ≡ self.old.missed) × (self.new.last ≡ self.old.last) }
    {
        // with the header comes what holds of every store
        let _made = self.store.is_made();
        let Some((story, setup)) = opened(stories, game) else {
            return Ok(None);
        };
        let most = inputs_of(game) as u32;
        let area = found(alloc, &mut self.store, place, most)?;
        // so an area that agrees with the game has the game's own world
        has_one_world();
        let world = play(alloc, story, setup, game, &area, steps)?;
        Ok(Some(world))
    }

    /// Its store.
    pub fn into_store(self) -> Store<D>
        ensures value { result ≡ self.store }
    {
        let Saves {
            store,
            missed: _,
            last: _,
        } = self;
        store
    }
}
