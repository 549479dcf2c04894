//! A host is opened (own).
ghost use Rattle.std.specs.Prelude.{◌≡◌, ◌≤◌, IsTrue, IfOk, IfErr, List, [], length, max};
ghost use Rattle.std.specs.Prelude.{vec_capacity};
ghost use Rattle.std.specs.List.{AllZip};
ghost use Rattle.disk_model.specs.Work.{EachImage, LeavesOnly, OnlyLooks, SameDisk};
ghost use Rattle.gate_journal.specs.Command.{IsBudget};
ghost use Rattle.gate_journal.specs.Faults.{Explains, HasCause, IsNoFault};
ghost use Rattle.gate_journal.specs.Log.{MayOpen, ReachesGate, rows_kept, rows_of};
ghost use Rattle.gate_journal.specs.Rows.{IsJournal, SpellsRows};
ghost use Rattle.gate_journal.specs.declared.row.Row.{Row};
ghost use Rattle.host_serve.specs.Hosts.{IsSound, rows_at_opening, opened_stores};
ghost use Rattle.host_serve.specs.Opening.{AreAgreed, IsOpenedHost, IsRefused, IsStoreOf};
ghost use Rattle.host_serve.specs.Opening.{OnJournal, OnStore};

use crate::desks::{open_desks, open_stores, rows_copied};
use crate::fault::OpenFault;
use crate::host::{Host, Passes};
use disk_model::Disk;
use gate_journal::Journal;
use snap_store::Store;
use std::alloc::{AllocError, Global};
use std::snapshot::Snapshot;
use story_run::Story;
use turn_cell::Cell;

/// The host of a journal and of stores that were just opened.
fn open_over<'i, D: Disk + Drop>(
    alloc: Global,
    stories: &'i [Story<'i>],
    budget: u64,
    journal: Journal<D>,
    stores: Vec<Store<D>>,
    room: Vec<D>,
) -> Result<(Host<'i, D>, Passes<'i, D>), AllocError>
    requires budget { IsBudget budget }
    requires many { length stores.items ≡ 64 }
    requires room { (room.items ≡ []) × (64 ≤ vec_capacity room) }
    requires fresh { journal.entries ≡ rows_kept (rows_of journal.entries) }
    ensures ok { IfOk result (λ pair. IsOpenedHost stories.now budget (rows_of journal.entries)
        journal.opening pair.0 pair.1) }
    ensures journal { IfOk result (λ _. IsJournal (rows_of journal.entries)) }
    ensures stores { IfOk result (λ pair. opened_stores pair.0 ≡ stores.items) }
{
    let rows = rows_copied(alloc, &journal)?;
    let (cell, mut root) = Cell::new(alloc, journal)?;
    let opened = Snapshot::of(&stores);
    let (desks, passes) = open_desks(alloc, stories, budget, &cell, &mut root, &rows, stores)?;
    Ok((
        Host {
            stories,
            budget,
            journal: cell,
            root,
            desks,
            opened,
            room,
        },
        Passes { desks: passes },
    ))
}

impl<'i, D: Disk + Drop> Host<'i, D> {
    /// The sessions of a journal, each with the commands of its rows, its snapshots on a disk of
    /// its own, cold and in a cell of its own, and the roots of these cells. The budget is that of
    /// a turn, in ticks, with which sessions are opened. The disk of a journal or of snapshots that
    /// is refused comes back; the other disks are let go, and all of them where memory runs out
    /// behind the journal's opening. Memory is wanted before a store is opened or once all are.
    #[tactic(auto, using(crate::proofs::StoreLemmas::off_journal, crate::proofs::StoreLemmas::on_store))]
    pub fn open(
        alloc: Global,
        stories: &'i [Story<'i>],
        journal: D,
        snaps: Vec<D>,
        budget: u64,
    ) -> Result<(Host<'i, D>, Passes<'i, D>), OpenFault<D>>
        requires budget { IsBudget budget }
        requires snaps { length snaps.items ≡ 64 }

        ensures ok { IfOk result (λ pair. (rows : List Row) × IsJournal rows
            × (IsTrue (D.tells journal) → SpellsRows (D.seen journal) rows)
            × IsOpenedHost stories.now budget rows (record { disk = journal; found = length rows })
            pair.0 pair.1) }
        ensures stores { IfOk result (λ pair. AllZip (IsStoreOf D.Disk) snaps.items
            (opened_stores pair.0)) }
        ensures sound { IfOk result (λ pair.
            AreAgreed D.Disk stories.now (rows_at_opening pair.0) snaps.items
            → IsSound D.Disk pair.0) }

        // Snapshots are refused only where their disk failed.
        ensures snap { IfErr result (λ f. OnStore f (IsRefused D.Disk snaps.items)) }

        // A journal that is refused comes back as its own opening leaves it.
        ensures exact { IfErr result (λ f. OnJournal f (λ why back. IsTrue (D.tells journal)
            → Explains (D.seen journal) why)) }
        ensures cause { IfErr result (λ f. OnJournal f (λ why back.
            HasCause (D.faults journal) (D.faults back) why)) }
        ensures steady { IsTrue (D.steady journal) → IfErr result (λ f. OnJournal f (λ why back.
            IsTrue (D.steady back))) }
        ensures kept { IfErr result (λ f. OnJournal f (λ why back.
            SameDisk D.Disk journal back)) }
        ensures refused { IfErr result (λ f. OnJournal f (λ why back. IsNoFault why
            → OnlyLooks D.Disk journal
            back × (IsTrue (D.tells journal) → D.seen back ≡ D.seen journal))) }
        ensures crash { (rows : List Row) → IsJournal rows
            → EachImage D.Disk journal (MayOpen rows) → IsTrue (D.tells journal)
            → IfErr result (λ f. OnJournal f (λ why back.
            LeavesOnly D.Disk journal back (MayOpen rows))) }
        ensures reach { IfErr result (λ f. OnJournal f (λ why back.
            D.reach back ≤ max (D.reach journal) (D.room journal))) }
        ensures told_reach { IsTrue (D.tells journal) → IfErr result (λ f. OnJournal f
            (λ why back. D.reach back ≤ max (D.reach journal) (length (D.seen journal)))) }
        ensures writes { IsTrue (D.tells journal) → IfErr result (λ f. OnJournal f
            (λ why back. ReachesGate (D.seen journal) (D.reach journal) (D.reach back))) }
    {
        let journal = match Journal::open(alloc, journal) {
            Ok(journal) => journal,
            Err((fault, disk)) => return Err(OpenFault::Journal(fault, disk)),
        };
        let mut room = snaps;
        let stores = match open_stores(alloc, &mut room) {
            Ok(stores) => stores,
            Err(fault) => return Err(fault),
        };
        match open_over(alloc, stories, budget, journal, stores, room) {
            Ok(opened) => Ok(opened),
            Err(_) => Err(OpenFault::NoMemory),
        }
    }
}
