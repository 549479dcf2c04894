//! A host ends (own).
ghost use Rattle.std.specs.Prelude.{◌≡◌, ◌+◌, ◌≤◌, ◌∷◌, [], ℕ, List, length, map, Some};
ghost use Rattle.std.specs.Prelude.{vec_capacity};
ghost use Rattle.std.specs.List.{AllZip};
ghost use Rattle.disk_model.specs.Work.{EachImage};
ghost use Rattle.gate_journal.specs.Log.{IsSinceOpened, Log, MayOpen, MaySpell, Rises, rows_of};
ghost use Rattle.gate_journal.specs.Rows.{IsJournal};
ghost use Rattle.gate_journal.specs.declared.row.Row.{Row};
ghost use Rattle.session_desk.specs.Shared.{desk_tag};
ghost use Rattle.snap_store.specs.Store.{Snapshots};
ghost use Rattle.story_run.specs.declared.story.Story.{Story};
ghost use Rattle.turn_cell.specs.Passes.{IsOf, IsOutside, seen, tag_of};
ghost use Rattle.host_serve.specs.Ending.{AreAgreedDisks, EndsWith, GivesBack, KeepFiles};
ghost use Rattle.host_serve.specs.Gathering.{BringsIn, Gathers, KeepsRoot};
ghost use Rattle.host_serve.specs.Holders.{holder_of, holders, seens};
ghost use Rattle.host_serve.specs.Hosts.{AreOf, ArePasses, IsSound, cell_id, opened_stores, tag_at};
ghost use Rattle.host_serve.specs.Hosts.{rows_at_opening, tags_from};

use crate::desks::SESSIONS;
use crate::host::{Host, Passes};
use disk_model::Disk;
use gate_journal::Journal;
use session_desk::Desk;
use std::sync::Wait;
use turn_cell::{Cell, Pass};

/// Enters a session's cell, joins the desk's pass of the journal into the root, and hands the disk
/// of its store back.
fn bring_in<'i, D: Disk + Drop, R: Wait>(
    rt: &R,
    _session: usize,
    journal: &Cell<Journal<D>>,
    root: &mut Pass<Journal<D>>,
    cell: &Cell<Desk<'i, D>>,
    pass: &mut Pass<Desk<'i, D>>,
) -> D
    requires root { IsOf journal.now root.old × IsOutside root.old }
    requires pass { IsOf cell.now pass.old × IsOutside pass.old }
    requires tag { (stories : List Story) × (budget : ℕ) × (rows : List Row)
        × (store : Snapshots D) × (tag_of desk_tag pass.old
        ≡ Some (tag_at stories budget (cell_id journal.now) rows _session store)) }
    ensures value { BringsIn D.Disk _session (holder_of pass.old) (seen pass.old)
        (tag_of desk_tag pass.old) root.new result }
    ensures grows { KeepsRoot ((_session + 1) ∷ []) root.old root.new }
    ensures kept { IsOf journal.now root.new × IsOutside root.new }
{
    let desk = cell.enter(rt, pass);
    let (journal_pass, store) = desk.into_parts();
    journal.join(root, journal_pass);
    store.into_disk()
}

/// Brings in the desks of all sessions.
fn gather<'i, D: Disk + Drop, R: Wait>(
    rt: &R,
    journal: &Cell<Journal<D>>,
    root: &mut Pass<Journal<D>>,
    cells: &[Cell<Desk<'i, D>>],
    passes: &mut [Pass<Desk<'i, D>>],
    disks: &mut Vec<D>,
)
    requires many { length cells.now ≡ 64 }
    requires root { IsOf journal.now root.old × IsOutside root.old }
    requires passes { (stories : List Story) × (budget : ℕ) × (rows : List Row)
        × (stores : List (Snapshots D)) × (length stores ≡ 64)
        × ArePasses desk_tag (tags_from stories budget (cell_id journal.now) rows 0 stores)
        cells.now passes.old }
    requires room { (disks.old.items ≡ []) × (64 ≤ vec_capacity disks.old) }
    ensures value { Gathers D.Disk 64
        (holders passes.old) (seens passes.old) (map (tag_of desk_tag) passes.old) root.old
        root.new disks.new.items }
    ensures kept { IsOf journal.now root.new × IsOutside root.new }
{
    for s in 0..usize::from(SESSIONS) {
        disks.push_reserved(bring_in(rt, s, journal, root, &cells[s], &mut passes[s]));
    }
}

impl<'i, D: Disk + Drop> Host<'i, D> {
    /// Ends the host, and hands back its journal's disk and those of the snapshots, in the order of
    /// the sessions. It waits for each session's cell and then for the journal's, and takes no
    /// memory.
    pub fn end<R: Wait>(self, rt: &R, passes: Passes<'i, D>) -> (D, Vec<D>)
        requires passes { AreOf self passes }
        ensures value { (log : Log D) × (result.0 ≡ log.disk)
            × EndsWith self.entry passes.entry log
            × IsJournal (rows_of log.entries)
            × EachImage D.Disk result.0 (MaySpell (rows_of log.entries) log.uncertain)
            × EachImage D.Disk result.0 (MayOpen (rows_of log.entries))
            × Rises (D.faults log.opening.disk) log.entries (D.faults result.0)
            × IsSinceOpened D.Disk log
            × (IsSound D.Disk self.entry → AreAgreedDisks D.Disk
            self.entry.stories.now (rows_of log.entries) result.1.items)
            × (IsSound D.Disk self.entry → KeepFiles D.Disk
            self.entry.stories.now (rows_at_opening self.entry) (rows_of log.entries)
            (opened_stores self.entry) result.1.items) }
        ensures stores { AllZip (GivesBack D.Disk) (opened_stores self.entry) result.1.items }
    {
        let Host {
            journal,
            mut root,
            desks,
            room: mut disks,
            ..
        } = self;
        let mut passes = passes.desks;
        gather(rt, &journal, &mut root, &desks, &mut passes, &mut disks);
        (journal.enter(rt, &mut root).into_disk(), disks)
    }
}
