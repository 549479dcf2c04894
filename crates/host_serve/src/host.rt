//! A host: a cell for each session, and one for the journal that they share (own).
use disk_model::Disk;
use gate_journal::Journal;
use session_desk::Desk;
use snap_store::Store;
use std::snapshot::Snapshot;
use story_run::Story;
use turn_cell::{Cell, Pass};

/// 64 sessions over one journal, each in a cell of its own.
#[derive(Drop)]
pub struct Host<'i, D: Disk> {
    pub(crate) stories: &'i [Story<'i>],
    pub(crate) budget: u64,
    pub(crate) journal: Cell<Journal<D>>,
    /// The root of the journal's cell.
    pub(crate) root: Pass<Journal<D>>,
    pub(crate) desks: Vec<Cell<Desk<'i, D>>>,
    /// The stores of the sessions' snapshots, as they were opened.
    pub(crate) opened: Snapshot<Vec<Store<D>>>,
    /// Room for the stores' disks, since `end` takes no memory.
    pub(crate) room: Vec<D>,
}

/// A pass for each session of one host.
#[derive(Drop)]
pub struct Passes<'i, D: Disk> {
    pub(crate) desks: Vec<Pass<Desk<'i, D>>>,
}
