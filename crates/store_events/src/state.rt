//! The state of a session's snapshot file (own).

ghost use Rattle.std.specs.Prelude.{◌≡◌};

use crate::area::NewArea;
use disk_model::PlainDisk;
use snap_store::{Side, Slots};

/// How far a put has come: the device call that is its next one.
#[derive(Clone, Copy)]
pub enum PutStage {
    /// It closes the gate of the area that it takes.
    CloseWrite,
    CloseSync,
    /// It writes the area behind the closed gate: the sixteen bytes with which it starts, then the
    /// others.
    HeadWrite,
    BytesWrite,
    AreaSync,
    /// It opens the gate.
    OpenWrite,
    OpenSync,
}

/// How far an opening has come.
#[derive(Clone, Copy)]
pub enum OpeningStage {
    /// It syncs, asks the size, and reads how the file and how each area begins.
    FirstSync,
    AskSize,
    ReadFront,
    ReadA,
    ReadB,
}

/// What the disk is asked next.
#[derive(Drop)]
pub enum FileStep {
    /// Nothing.
    Idle,
    /// The call of a put that has come so far, of this area in this place.
    Put {
        stage: PutStage,
        side: Side,
        area: NewArea,
    },
    /// The call of an opening.
    Opening(OpeningStage),
}

/// The step is this from now on.
pub fn set_step(step: &mut FileStep, next: FileStep)
    ensures { step.new ≡ next }
{
    *step = next;
}

/// A session's snapshot file: its disk, and what is known of it.
#[derive(Drop)]
pub struct StoreState {
    // An opening has ended well, and no stop has come since.
    pub(crate) up: bool,
    // The disk, and how often a call of it has failed.
    pub(crate) disk: PlainDisk,
    pub(crate) faults: u64,
    // The file has its header; and what is known of its two gates, within a put too.
    pub(crate) made: bool,
    pub(crate) slots: Slots,
    pub(crate) step: FileStep,
}
