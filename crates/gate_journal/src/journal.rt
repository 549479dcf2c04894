//! The journal (own).

ghost use Rattle.std.specs.Prelude.{◌≡◌, ◌⊎◌, ◌+◌, ◌<◌, ◌≤◌, ◌++◌, [], ◌∷◌};
ghost use Rattle.std.specs.Prelude.{◌↔◌, ℕ, List, true, Option, IfSome};
ghost use Rattle.std.specs.Prelude.{IsTrue, IsOk, IfOk, IfErr, OnOk, OnErr, MatchOption, MatchResult};
ghost use Rattle.std.specs.Prelude.{Some, None, length, max, slice_get, slice_index};
ghost use Rattle.disk_model.specs.Work.{EachImage, LeavesOnly, SameDisk, OnlyLooks};
ghost use Rattle.disk_model.specs.Work.{GoodCalls, FailedCall};
ghost use Rattle.gate_journal.specs.Rows.{journal_bytes, IsJournal, IsNext, MayStand, SpellsRows};
ghost use Rattle.gate_journal.specs.Rows.{version_byte};
ghost use Rattle.gate_journal.specs.Faults.{Explains, IsFault, IsNoFault, IsDiskFault, HasCause};
ghost use Rattle.gate_journal.specs.declared.row.Row.{Row};
ghost use Rattle.gate_journal.specs.declared.entry.Entry.TheVariants.{Kept, Faulted};

use crate::command::Command;
use crate::entry::Entry;
use crate::fault::{DiskFault, JournalFault};
use crate::gate::{RowFault, write_row};
use crate::history::History;
use crate::load::load;
use crate::moments::Moments;
use crate::parse::Parsed;
use crate::room::Room;
use crate::row::Row;
use crate::settle::{let_go, note_uncertain, settle};
use disk_model::Disk;
use std::alloc::{AllocError, Global};
use std::marker::Model;
use std::snapshot::Snapshot;
use turn_cell::Told;

/// Rows on a disk, each of them there through any stop once its append has answered Ok.
#[derive(Drop)]
pub struct Journal<D: Disk> {
    disk: D,
    history: History,
    end: u64,
    uncertain: Option<Row>,
    // the disk as it was handed in, and how many entries were found on it
    opened: Snapshot<D>,
    found: u64,
    // the disk as the opening left it, and as it stood at each entry since
    start: Snapshot<D>,
    steps: Moments<D>,
    room: Option<Room>,
}

impl<D: Disk> Model for Journal<D> {
    ghost use Rattle.std.specs.Prelude.{is_some, ◌&&◌};
    ghost use Rattle.gate_journal.specs.Log.{Log, IsSoundJournal, IsSinceOpened};

    ghost Value = { Log D };

    ghost view = { λ j. record {
      disk = j.disk;
      entries = j.history.list;
      uncertain = j.uncertain;
      opening = record { disk = j.opened.value; found = j.found };
      start = j.start.value;
      steps = j.steps.list;
      ready = is_some j.room && j.history.room && j.steps.room;
    } };

    ghost invariant = { λ j. IsSoundJournal D.Disk (record {
      disk = j.disk;
      entries = j.history.list;
      uncertain = j.uncertain;
      opening = record { disk = j.opened.value; found = j.found };
      start = j.start.value;
      steps = j.steps.list;
      ready = is_some j.room && j.history.room && j.steps.room;
    })
        j.end
        × IsSinceOpened D.Disk (record {
          disk = j.disk;
          entries = j.history.list;
          uncertain = j.uncertain;
          opening = record { disk = j.opened.value; found = j.found };
          start = j.start.value;
          steps = j.steps.list;
          ready = is_some j.room && j.history.room && j.steps.room;
        }) };
}

impl<D: Disk> Told for Journal<D> {
    ghost use Rattle.gate_journal.specs.Log.{Opening, entry_number};

    type Entry = Entry;

    ghost Tag = { Opening D };

    ghost entries = { λ j. j.entries };

    ghost by = { entry_number };

    ghost tag = { λ j. j.opening };

    fn count(&self) -> u64 {
        self.history.len()
    }
}

impl<D: Disk> Journal<D> {
    ghost use Rattle.gate_journal.specs.Log.{rows_of, rows_kept, Rises, SameLog, next_row, row_end};
    ghost use Rattle.gate_journal.specs.Log.{MaySpell, MayOpen, MayFind, Meanwhile, ReachesGate};
    ghost use Rattle.gate_journal.specs.Log.{IsMigrating, IsSinceOpened, StandsInEither};
    ghost use Rattle.gate_journal.specs.Log.{StandsInImage, gates_left};
    ghost use Rattle.gate_journal.specs.Opening.{opening_calls};

    /// The journal of a disk, with the rows that its bytes spell. It syncs first. A refusal hands
    /// the disk back.
    pub fn open(alloc: Global, disk: D) -> Result<Journal<D>, (JournalFault, D)>
        ensures ok { IfOk result (λ j. IsTrue (D.tells disk)
            → SpellsRows (D.seen disk) (rows_of j.entries)) }
        ensures fresh { IfOk result (λ j. (j.entries ≡ rows_kept (rows_of j.entries))
            × (j.uncertain ≡ None)
            × (j.opening ≡ record { disk = disk; found = length j.entries })
            × (j.start ≡ j.disk) × (j.steps ≡ [])) }
        ensures exact { IfErr result (λ e. IsTrue (D.tells disk)
            → Explains (D.seen disk) e.0) }
        ensures cause { MatchResult result (λ j. D.faults j.disk ≡ D.faults disk)
            (λ e. HasCause (D.faults disk) (D.faults e.1) e.0) }

        // After Ok so many device calls were good; after a fault of the disk one of them failed,
        // behind good ones: it was to fail, or found no memory.
        ensures calls { IsTrue (D.tells disk) → MatchResult result
            (λ j. GoodCalls D.Disk (opening_calls (D.seen disk)
            (length (journal_bytes (rows_of j.entries)))) disk j.disk)
            (λ e. IsDiskFault e.0 → (k : ℕ) × (k < 7)
            × FailedCall D.Disk 0 k disk e.1) }

        ensures steady { IsTrue (D.steady disk) → MatchResult result
            (λ j. IsTrue (D.steady j.disk)) (λ e. IsTrue (D.steady e.1)) }
        ensures kept { MatchResult result
            (λ j. SameDisk D.Disk disk j.disk)
            (λ e. SameDisk D.Disk disk e.1) }

        // Unless the disk failed a refusal leaves it as it was.
        ensures refused { IfErr result (λ e. IsNoFault e.0
            → OnlyLooks D.Disk disk e.1 × (IsTrue (D.tells disk) → D.seen e.1 ≡ D.seen disk)) }

        // Meanwhile an image is one from before, or has its closing gate or then its version byte
        // being written, where they aren't 0 and 1.
        ensures migrates { IsTrue (D.tells disk) → MatchResult result
            (λ j. LeavesOnly D.Disk disk j.disk
            (λ c. D.may_leave disk c ⊎ IsMigrating (D.seen disk) c))
            (λ e. LeavesOnly D.Disk disk e.1
            (λ c. D.may_leave disk c ⊎ IsMigrating (D.seen disk) c)) }
        // Whatever rows the images spell, or these and one more, they spell so meanwhile.
        ensures crash { (rows : List Row) → IsJournal rows
            → EachImage D.Disk disk (MayOpen rows) → IsTrue (D.tells disk) → MatchResult result
            (λ j. LeavesOnly D.Disk disk j.disk (MayOpen rows))
            (λ e. LeavesOnly D.Disk disk e.1 (MayOpen rows)) }
        // Where these rows stand in each image, of either version, and no row or this one behind an
        // uncertain gate, it stays so meanwhile, and these are found, or these and that one.
        ensures stands { (rows : List Row) (uncertain : Option Row) → IsJournal rows
            → IfSome uncertain (IsNext rows)
            → EachImage D.Disk disk (StandsInEither rows uncertain) → IsTrue (D.tells disk)
            → MatchResult result
            (λ j. LeavesOnly D.Disk disk j.disk (StandsInEither rows uncertain)
            × MayFind rows uncertain (rows_of j.entries))
            (λ e. LeavesOnly D.Disk disk e.1 (StandsInEither rows uncertain)) }
        ensures reach { MatchResult result
            (λ j. D.reach j.disk ≤ max (D.reach disk) (D.room disk))
            (λ e. D.reach e.1 ≤ max (D.reach disk) (D.room disk)) }
        ensures told_reach { IsTrue (D.tells disk) → MatchResult result
            (λ j. D.reach j.disk ≤ max (D.reach disk) (length (D.seen disk)))
            (λ e. D.reach e.1 ≤ max (D.reach disk) (length (D.seen disk))) }
        // Nothing is written behind the closing gate, and nothing where it isn't known.
        ensures ends { IfOk result (λ j. D.reach j.disk
            ≤ max (D.reach disk) (length (journal_bytes (rows_of j.entries)) + 1)) }
        ensures writes { IsTrue (D.tells disk) → MatchResult result
            (λ j. ReachesGate (D.seen disk) (D.reach disk) (D.reach j.disk))
            (λ e. ReachesGate (D.seen disk) (D.reach disk) (D.reach e.1)) }
        // A closing gate that is 0 is left alone, and so is a journal of version 2.
        ensures untouched { IfOk result (λ j. IsTrue (D.tells disk)
            → slice_index (D.seen disk) (length (journal_bytes (rows_of j.entries))) ≡ 0
            → version_byte (D.seen disk) ≡ 1 → D.reach j.disk ≡ D.reach disk) }
    {
        let opened = Snapshot::of(&disk);
        let mut disk = disk;
        let Parsed { history, end } = match load(alloc, &mut disk) {
            Ok(parsed) => parsed,
            Err(fault) => return Err((fault, disk)),
        };
        let found = history.len();
        let start = Snapshot::of(&disk);
        Ok(Journal {
            disk,
            history,
            end,
            uncertain: None,
            opened,
            found,
            start,
            steps: Moments::new(alloc),
            room: None,
        })
    }

    /// Takes the memory of one append: for its row, its entry and the row's bytes.
    pub fn reserve(&mut self, alloc: Global) -> Result<(), AllocError>
        ensures ok { OnOk result (self.new.ready ≡ true) }
        ensures kept { SameLog self.old self.new }
    {
        self.history.reserve()?;
        self.steps.reserve()?;
        if self.room.is_none() {
            self.room = Some(Room::new(alloc)?);
        }
        Ok(())
    }

    /// Whether `append` may be asked for this: the session is below 64 and has fewer than 8,192
    /// rows, the command's fields are in their ranges, and it is an OPEN exactly where the session
    /// is free. It looks at all rows.
    pub fn may_append(&self, session: u8, command: &Command) -> bool
        ensures { IsTrue result ↔ MayStand (rows_of self.now.entries) session command.now }
    {
        self.history.may_stand(session, command)
    }

    /// Writes a row with an equal command behind the last one, and takes no memory. Where a gate is
    /// uncertain it closes that first. It answers the place of the row's gate.
    pub fn append(&mut self, session: u8, command: &Command) -> Result<u64, DiskFault>
        requires ready { self.old.ready ≡ true }
        requires stands { MayStand (rows_of self.old.entries) session command.now }

        // From then on each image spells the row: it is an entry, and no gate is uncertain.
        ensures ok { IfOk result (λ place.
            (place ≡ length (journal_bytes (rows_of self.old.entries)))
            × (self.new.entries ≡ self.old.entries
            ++ Kept (next_row (rows_of self.old.entries) session command.now) ∷ [])
            × (self.new.uncertain ≡ None)) }
        ensures works { IsTrue (D.steady self.old.disk)
            → (row_end (next_row (rows_of self.old.entries) session command.now)
            ≤ D.room self.old.disk → IsOk result)
            × IsTrue (D.steady self.new.disk) }

        // The gate was left as it was, or closed, or had its write begun.
        ensures err { IfErr result (λ e.
            (self.new.entries ≡ self.old.entries
            ++ Faulted (next_row (rows_of self.old.entries) session command.now) e.from e.to ∷ [])
            × ((self.new.uncertain ≡ self.old.uncertain)
            ⊎ (self.new.uncertain ≡ None)
            ⊎ (self.new.uncertain
            ≡ Some (next_row (rows_of self.old.entries) session command.now)))) }
        // After Ok all its device calls were good. After Err one of them failed, behind good ones,
        // and the gate is as that one leaves it.
        ensures calls { OnOk result (IsTrue (D.tells self.old.disk)
            → GoodCalls D.Disk (length (gates_left self.old.uncertain
            (next_row (rows_of self.old.entries) session command.now)))
            self.old.disk self.new.disk) }
        ensures stage { OnErr result (IsTrue (D.tells self.old.disk)
            → (k : ℕ) × FailedCall D.Disk
            (row_end (next_row (rows_of self.old.entries) session command.now)) k
            self.old.disk self.new.disk
            × (slice_get (gates_left self.old.uncertain
            (next_row (rows_of self.old.entries) session command.now)) k
            ≡ Some self.new.uncertain)) }
        ensures cause { MatchResult result
            (λ _. D.faults self.new.disk ≡ D.faults self.old.disk)
            (λ e. IsFault e (D.faults self.old.disk) (D.faults self.new.disk)) }

        ensures rows { MatchResult result
            (λ _. rows_of self.new.entries ≡ rows_of self.old.entries
            ++ next_row (rows_of self.old.entries) session command.now ∷ [])
            (λ _. rows_of self.new.entries ≡ rows_of self.old.entries) }
        // The entry is taken down with the disk as it stands then.
        ensures step { self.new.steps ≡ self.old.steps ++ self.new.disk ∷ [] }
        ensures kept { SameDisk D.Disk self.old.disk self.new.disk
            × (self.new.opening ≡ self.old.opening) × (self.new.start ≡ self.old.start) }

        // Meanwhile an image spells the rows from before alone, or these and the uncertain one, or
        // these and the new one.
        ensures crash { IsTrue (D.tells self.old.disk)
            → LeavesOnly D.Disk self.old.disk self.new.disk
            (Meanwhile (rows_of self.old.entries) self.old.uncertain
            (next_row (rows_of self.old.entries) session command.now)) }
        ensures reach { D.reach self.new.disk ≤ max (D.reach self.old.disk)
            (row_end (next_row (rows_of self.old.entries) session command.now)) }
    {
        let from = self.disk.faults();
        let (row, past) = self.room.take().unwrap().fill(self.end, session, command);
        let Ok(()) = settle(&mut self.disk, &mut self.uncertain, self.end) else {
            let to = self.disk.faults();
            let fault = self.history.note_fault(&row, from, to);
            self.steps.note(&self.disk);
            let_go(row);
            return Err(fault);
        };
        match write_row(&mut self.disk, self.end, &past) {
            Ok(()) => {
                let place = self.end;
                self.end += past.len() as u64;
                self.history.note_row(row);
                self.steps.note(&self.disk);
                Ok(place)
            }
            Err(RowFault::Before) => {
                let to = self.disk.faults();
                let fault = self.history.note_fault(&row, from, to);
                self.steps.note(&self.disk);
                let_go(row);
                Err(fault)
            }
            Err(RowFault::AtGate) => {
                let to = self.disk.faults();
                let fault = self.history.note_fault(&row, from, to);
                self.steps.note(&self.disk);
                note_uncertain(&mut self.uncertain, row);
                Err(fault)
            }
        }
    }

    /// How many rows there are. With it comes what holds of every journal.
    pub fn row_count(&self) -> u64
        ensures value { result ≡ length (rows_of self.now.entries) }
        ensures journal { IsJournal (rows_of self.now.entries) }
        ensures rises { Rises (D.faults self.now.opening.disk) self.now.entries
            (D.faults self.now.disk) }
        ensures since { IsSinceOpened D.Disk self.now }
        ensures images { EachImage D.Disk self.now.disk
            (MaySpell (rows_of self.now.entries) self.now.uncertain) }
        ensures opens { EachImage D.Disk self.now.disk (MayOpen (rows_of self.now.entries)) }
        ensures next { IfSome self.now.uncertain (IsNext (rows_of self.now.entries)) }
        ensures stands { EachImage D.Disk self.now.disk
            (StandsInImage (rows_of self.now.entries) self.now.uncertain) }
    {
        self.history.row_count()
    }

    /// The row of this index, counted from 0; None exactly past the end.
    pub fn row(&self, index: u64) -> Option<&Row>
        ensures { MatchOption result (slice_get (rows_of self.now.entries) index ≡ None)
            (λ row. slice_get (rows_of self.now.entries) index ≡ Some row.now) }
    {
        self.history.row(index)
    }

    /// Its disk, which may be opened again.
    pub fn into_disk(self) -> D
        ensures value { result ≡ self.disk }
        ensures journal { IsJournal (rows_of self.entries) }
        ensures images { EachImage D.Disk result (MaySpell (rows_of self.entries) self.uncertain) }
        ensures opens { EachImage D.Disk result (MayOpen (rows_of self.entries)) }
        ensures next { IfSome self.uncertain (IsNext (rows_of self.entries)) }
        ensures stands { EachImage D.Disk result
            (StandsInImage (rows_of self.entries) self.uncertain) }
        ensures rises { Rises (D.faults self.opening.disk) self.entries (D.faults result) }
        ensures since { IsSinceOpened D.Disk self }
    {
        let Journal { disk, .. } = self;
        disk
    }
}
