//! The desks of a host, each in a cell of its own (own).
ghost use Rattle.std.specs.Prelude.{◌≡◌, ◌+◌, ◌<◌, ◌≤◌, [], IfOk, IfErr, OnOk, length};
ghost use Rattle.std.specs.Prelude.{vec_capacity};
ghost use Rattle.std.specs.List.{AllZip};
ghost use Rattle.turn_cell.specs.Passes.{IsOf, IsOutside, KeepsNumbers, made, pass_number, seen};
ghost use Rattle.gate_journal.specs.Log.{rows_kept, rows_of};
ghost use Rattle.gate_journal.specs.Rows.{IsJournal};
ghost use Rattle.host_serve.specs.Hosts.{cell_id};
ghost use Rattle.host_serve.specs.Opening.{AreOpenedDesks, IsOfStores, IsOpenedDesk, IsRefused};
ghost use Rattle.host_serve.specs.Opening.{IsStoreOf};

use crate::fault::OpenFault;
use disk_model::Disk;
use gate_journal::{Journal, Row};
use session_desk::{Desk, journals_fit};
use snap_store::Store;
use std::alloc::{AllocError, Global};
use story_run::Story;
use turn_cell::{Cell, Pass};

/// How many sessions a host has.
pub const SESSIONS: u8 = 64;

/// Equal rows to those of a journal.
pub fn rows_copied<D: Disk>(alloc: Global, journal: &Journal<D>) -> Result<Vec<Row>, AllocError>
    ensures value { IfOk result (λ rows. rows.items ≡ rows_of journal.now.entries) }
    ensures journal { IsJournal (rows_of journal.now.entries) }
{
    let mut rows = Vec::new(alloc);
    for at in 0..journal.row_count() {
        let Some(row) = journal.row(at) else {
            unreachable!();
        };
        rows.push(row.copy_of(alloc)?)?;
    }
    Ok(rows)
}

/// The stores of the disks of all sessions, one after the other. The room of the disks is left.
/// Memory is wanted before the first of them is opened, or not at all.
pub fn open_stores<D: Disk + Drop>(
    alloc: Global,
    disks: &mut Vec<D>,
) -> Result<Vec<Store<D>>, OpenFault<D>>
    requires many { length disks.old.items ≡ 64 }
    ensures ok { IfOk result (λ stores. AllZip (IsStoreOf D.Disk) disks.old.items stores.items) }
    ensures err { IfErr result (λ f. IsOfStores f (IsRefused D.Disk disks.old.items)
        (disks.new.items ≡ disks.old.items)) }
    ensures room { OnOk result ((disks.new.items ≡ []) × (64 ≤ vec_capacity disks.new)) }
{
    let Ok(mut stores) = Vec::with_capacity(alloc, usize::from(SESSIONS)) else {
        return Err(OpenFault::NoMemory);
    };
    for disk in disks.drain(..) {
        match Store::open(disk) {
            Ok(store) => stores.push_reserved(store),
            Err((fault, disk)) => {
                let session = stores.len() as u8;
                return Err(OpenFault::Snap {
                    session,
                    fault,
                    disk,
                });
            }
        }
    }
    Ok(stores)
}

/// The desk of a session in a cell, with a pass that is split from the root of the journal's cell,
/// and the root of its own.
fn open_desk<'i, D: Disk + Drop>(
    alloc: Global,
    session: u8,
    stories: &'i [Story<'i>],
    budget: u64,
    journal: &Cell<Journal<D>>,
    root: &mut Pass<Journal<D>>,
    rows: &[Row],
    store: Store<D>,
) -> Result<(Cell<Desk<'i, D>>, Pass<Desk<'i, D>>), AllocError>
    requires session { session < 64 }
    requires cell { IsOf journal.now root.old × IsOutside root.old }
    requires root { (pass_number root.old ≡ 0) × (made root.old ≡ session) }
    requires rows { (seen root.old ≡ rows_kept rows.now) × IsJournal rows.now }
    ensures ok { IfOk result (λ pair. IsOpenedDesk stories.now budget (cell_id journal.now)
        rows.now session store pair.0 pair.1 × (made root.new ≡ session + 1)) }
    ensures kept { IsOf journal.now root.new × IsOutside root.new
        × KeepsNumbers root.old root.new × (seen root.new ≡ seen root.old) }
{
    journals_fit();
    let pass = journal.split(alloc, root)?;
    let desk = Desk::open(alloc, session, stories, budget, rows, pass, store)?;
    Cell::new(alloc, desk)
}

/// The desks of all sessions, each in a cell, and the roots of these cells.
pub fn open_desks<'i, D: Disk + Drop>(
    alloc: Global,
    stories: &'i [Story<'i>],
    budget: u64,
    journal: &Cell<Journal<D>>,
    root: &mut Pass<Journal<D>>,
    rows: &[Row],
    stores: Vec<Store<D>>,
) -> Result<(Vec<Cell<Desk<'i, D>>>, Vec<Pass<Desk<'i, D>>>), AllocError>
    requires many { length stores.items ≡ 64 }
    requires cell { IsOf journal.now root.old × IsOutside root.old }
    requires root { (pass_number root.old ≡ 0) × (made root.old ≡ 0) }
    requires rows { (seen root.old ≡ rows_kept rows.now) × IsJournal rows.now }
    ensures ok { IfOk result (λ pair. AreOpenedDesks stories.now budget (cell_id journal.now)
        rows.now stores.items pair.0.items pair.1.items) }
    ensures kept { IsOf journal.now root.new × IsOutside root.new
        × KeepsNumbers root.old root.new × (seen root.new ≡ seen root.old) }
{
    let mut cells = Vec::new(alloc);
    let mut passes = Vec::new(alloc);
    for store in stores {
        let s = cells.len() as u8;
        let (cell, pass) = open_desk(alloc, s, stories, budget, journal, root, rows, store)?;
        cells.push(cell)?;
        passes.push(pass)?;
    }
    Ok((cells, passes))
}
