//! The state of a host (own).

ghost use Rattle.std.specs.Prelude.{◌≡◌};

use crate::items::Items;
use crate::rows::{JournalRows, NewRow};
use crate::turn::Session;
use disk_model::PlainDisk;
use gate_journal::Rows;
use line_words::Reply;

/// What the journal's disk is asked next. An append has its row, and the disk's count of faults as
/// it began; an opening has the rows that it found.
#[derive(Drop)]
pub enum Step {
    /// Nothing.
    Idle,
    /// An append closes the gate of an earlier row, of which nothing is known.
    RepairWrite { row: NewRow, from: u64 },
    RepairSync { row: NewRow, from: u64 },
    /// It writes its row behind the closed gate, and the next gate.
    RowWrite { row: NewRow, from: u64 },
    RowSync { row: NewRow, from: u64 },
    /// It opens the gate.
    GateWrite { row: NewRow, from: u64 },
    GateSync { row: NewRow, from: u64 },
    /// An opening syncs, asks the size and reads all bytes.
    FirstSync,
    AskSize,
    ReadAll,
    /// It closes a gate that isn't 0.
    CloseWrite { rows: Rows },
    CloseSync { rows: Rows },
    /// It makes a journal of version 1 one of version 2.
    VersionWrite { rows: Rows },
    VersionSync { rows: Rows },
}

/// The step is this from now on.
pub fn set_step(step: &mut Step, next: Step)
    ensures { step.new ≡ next }
{
    *step = next;
}

/// A reply, and the session that it was given to.
#[derive(Drop)]
pub struct Given {
    pub session: u8,
    pub reply: Reply,
}

/// A host with its journal alone: its sessions, the replies that it gave, and its journal.
#[derive(Drop)]
pub struct JournalHost {
    pub(crate) up: bool,
    pub(crate) sessions: Items<Session>,
    pub(crate) given: Items<Given>,
    // The journal's disk, and how often a call of it has failed.
    pub(crate) disk: PlainDisk,
    pub(crate) faults: u64,
    // The rows that are synced, and the row behind a gate of which nothing is known.
    pub(crate) rows: JournalRows,
    pub(crate) uncertain: Option<NewRow>,
    // The session that holds the journal.
    pub(crate) holder: Option<u8>,
    pub(crate) step: Step,
}

impl JournalHost {
    /// The replies, in the order in which they were given.
    pub fn replies(&self) -> &[Given]
        ensures { result.now ≡ self.now.given }
    {
        self.given.as_slice()
    }

    /// What the journal's disk reads as.
    pub fn journal(&self) -> &[u8]
        ensures { result.now ≡ self.now.disk.seen }
    {
        self.disk.seen()
    }
}
