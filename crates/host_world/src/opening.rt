//! What an opening finds (own).

ghost use Rattle.std.specs.Prelude.{◌≡◌, ◌==◌, ◌<◌, List, length, None, Some, IfOk, IfSome, OnOk};
ghost use Rattle.std.specs.Prelude.{if◌then◌else◌};
ghost use Rattle.gate_journal.specs.Rows.{journal_bytes, version_byte, IsJournal};
ghost use Rattle.gate_journal.specs.Log.{MayOpen};
ghost use Rattle.gate_journal.specs.declared.row.Row.{Row};
ghost use Rattle.host_world.specs.Journal.{comes_up, gate_closed, looked};
ghost use Rattle.host_world.specs.Reading.{begins_with, past_gate, row_behind_gate, rows_in, unsure_row};
ghost use Rattle.host_world.specs.Sessions.{found_sessions};
ghost use Rattle.host_world.specs.Starts.{down_over, rows_or_none, IsStart};

use crate::history::History;
use crate::items::Items;
use crate::rows::{JournalRows, NewRow};
use crate::state::{JournalHost, Step, set_step};
use crate::turn::Session;
use disk_model::PlainDisk;
use gate_journal::{JournalFault, Rows, read_rows, row_behind};
use std::alloc::{AllocError, Global};
use story_text::Bytes;

/// How many sessions a host has.
const SESSIONS: u8 = 64;

// The sessions that an opening makes of the rows.
fn found_sessions(alloc: Global, rows: &Rows) -> Result<Vec<Session>, AllocError>
    ensures { IfOk result (λ sessions. sessions.items ≡ found_sessions rows.now) }
{
    let mut sessions = Vec::new(alloc);
    for s in 0..SESSIONS {
        let history = History::found(alloc, rows, s)?;
        sessions.push(Session {
            history,
            turn: None,
        })?;
    }
    Ok(sessions)
}

// The rows that bytes spell, if they spell some.
#[tactic(auto, using(crate::proofs::ReadingLemmas::reads_rows, crate::proofs::ReadCode::headless_none, crate::proofs::ReadCode::corrupt_none))]
fn rows_in(alloc: Global, bytes: &[u8]) -> Result<Option<Rows>, AllocError>
    ensures value { IfOk result (λ rows. rows ≡ rows_in bytes.now) }
    ensures within { IfOk result (λ rows.
        IfSome rows (λ r. length (journal_bytes r) < length bytes.now)) }
{
    match read_rows(alloc, bytes) {
        Ok(rows) => Ok(Some(rows)),
        Err(JournalFault::NoMemory) => Err(AllocError),
        Err(JournalFault::NotJournal) => Ok(None),
        Err(JournalFault::Corrupt(_)) => Ok(None),
        Err(JournalFault::DiskFault(_)) => Ok(None),
    }
}

// Whether a journal of these bytes is of version 2.
fn is_second(bytes: &[u8]) -> bool
    ensures { result ≡ (version_byte bytes.now == 1) }
{
    match bytes.get(8) {
        Some(version) => *version == 1,
        None => false,
    }
}

// The row, where these bytes behind a gate begin with it and a closed gate.
fn before_gate(alloc: Global, row: NewRow, past: &[u8]) -> Result<Option<NewRow>, AllocError>
    ensures { IfOk result
        (λ found. found ≡ (if begins_with past.now (past_gate row) then Some row else None)) }
{
    let written = row.past_gate(alloc)?;
    if past.starts_with(written.as_slice()) {
        Ok(Some(row))
    } else {
        Ok(None)
    }
}

// The row behind a gate of which nothing is known, with which these bytes begin.
#[tactic(auto, using(crate::proofs::GateLemmas::unsure_none, crate::proofs::GateLemmas::unsure_found))]
fn unsure_row(
    alloc: Global,
    version: u8,
    rows: &Rows,
    bytes: &[u8],
) -> Result<Option<NewRow>, AllocError>
    ensures { IfOk result (λ found. found ≡ unsure_row version rows.now bytes.now) }
{
    let [gate, past @ ..] = bytes else {
        return Ok(None);
    };
    if *gate == 0 {
        return Ok(None);
    }
    let Some(row) = row_behind(alloc, version, rows, past)? else {
        return Ok(None);
    };
    before_gate(alloc, NewRow::of(row), past)
}

// The row behind the closing gate of a journal, where nothing is known of that.
fn row_behind_gate(
    alloc: Global,
    bytes: &[u8],
    rows: &Option<Rows>,
) -> Result<Option<NewRow>, AllocError>
    requires { IfSome rows.now (λ r. length (journal_bytes r) < length bytes.now) }
    ensures { IfOk result (λ found. found ≡ row_behind_gate bytes.now rows.now) }
{
    let Some(rows) = rows else {
        return Ok(None);
    };
    unsure_row(alloc, bytes[8], rows, &bytes[rows.end() as usize..])
}

// These rows, or none.
fn rows_or_none(alloc: Global, rows: Option<Rows>) -> Rows
    ensures { result ≡ rows_or_none rows }
{
    match rows {
        Some(rows) => rows,
        None => Rows::new(alloc),
    }
}

impl JournalHost {
    /// A host that is down over a disk that holds these bytes, with nothing pending and a count of 0,
    /// and that gave no replies. Where a row stands behind a gate that isn't closed, nothing is known
    /// of that gate.
    pub fn down(alloc: Global, journal: &Bytes) -> Result<JournalHost, AllocError>
        ensures value { IfOk result
            (λ w. w ≡ down_over journal.now (rows_or_none (rows_in journal.now))
            (row_behind_gate journal.now (rows_in journal.now))) }
        // Over a journal that an opening may meet a list of events may begin at it.
        ensures start { IfOk result (λ w. (rows : List Row) → IsJournal rows
            → MayOpen rows journal.now → IsStart w) }
    {
        let found = rows_in(alloc, journal.as_slice())?;
        let uncertain = row_behind_gate(alloc, journal.as_slice(), &found)?;
        let rows = rows_or_none(alloc, found);
        Ok(JournalHost {
            up: false,
            sessions: Items::of(found_sessions(alloc, &rows)?),
            given: Items::of(Vec::new(alloc)),
            disk: PlainDisk::settled(alloc, journal.as_slice())?,
            faults: 0,
            rows: JournalRows::of(alloc, rows),
            uncertain,
            holder: None,
            step: Step::Idle,
        })
    }

    /// An opening has ended well: the histories are those of the rows.
    pub(crate) fn come_up(&mut self, alloc: Global, rows: Rows) -> Result<(), AllocError>
        ensures { OnOk result (self.new ≡ comes_up self.old rows) }
    {
        self.sessions = Items::of(found_sessions(alloc, &rows)?);
        self.rows = JournalRows::of(alloc, rows);
        self.up = true;
        self.uncertain = None;
        self.holder = None;
        set_step(&mut self.step, Step::Idle);
        Ok(())
    }

    /// Its closing gate is 0.
    #[tactic(auto, using(crate::proofs::ReadCode::closed_second, crate::proofs::ReadCode::closed_first))]
    pub(crate) fn go_on_closed(&mut self, alloc: Global, rows: Rows) -> Result<(), AllocError>
        ensures { OnOk result (self.new ≡ gate_closed self.old rows) }
    {
        if is_second(self.disk.seen()) {
            return self.come_up(alloc, rows);
        }
        set_step(&mut self.step, Step::VersionWrite { rows });
        Ok(())
    }

    /// An opening has read all bytes.
    #[tactic(auto, using(crate::proofs::ReadCode::looks_none, crate::proofs::ReadCode::looks_shut, crate::proofs::ReadCode::looks_open))]
    pub(crate) fn look(&mut self, alloc: Global) -> Result<(), AllocError>
        ensures { OnOk result (self.new ≡ looked self.old (rows_in self.old.disk.seen)) }
    {
        let Some(rows) = rows_in(alloc, self.disk.seen())? else {
            set_step(&mut self.step, Step::Idle);
            return Ok(());
        };
        if self.disk.seen()[rows.end() as usize] == 0 {
            return self.go_on_closed(alloc, rows);
        }
        set_step(&mut self.step, Step::CloseWrite { rows });
        Ok(())
    }
}
