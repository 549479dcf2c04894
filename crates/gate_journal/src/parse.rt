//! The rows that bytes spell (own).

ghost use Rattle.std.specs.Prelude.{◌≡◌, ◌+◌, ◌≤◌, ◌++◌, [], List, ℕ, IfOk, IfErr, MatchOption};
ghost use Rattle.std.specs.Prelude.{length, drop, nat_eq, true};
ghost use Rattle.std.specs.List.{starts_with};
ghost use Rattle.gate_journal.specs.Rows.{journal_bytes, IsJournal, SpellsRows};
ghost use Rattle.gate_journal.specs.Rows.{header_with, version_byte, HasNoHeader};
ghost use Rattle.gate_journal.specs.Parsing.{BeginsWithRow, IsNoNext};
ghost use Rattle.gate_journal.specs.Seats.{CountsRows};
ghost use Rattle.gate_journal.specs.Faults.{RefusesBytes};
ghost use Rattle.gate_journal.specs.Log.{rows_of, rows_kept};
ghost use Rattle.gate_journal.specs.declared.row.Row.{Row};

use crate::fault::JournalFault;
use crate::history::History;
use crate::payload::read_command;
use crate::row::Row;
use crate::seats::Seats;
use std::alloc::{AllocError, Global};
use std::marker::Model;

// The byte that tells a journal's version, where the bytes begin with a header.
fn version_in(bytes: &[u8]) -> Option<u8>
    ensures { MatchOption result (HasNoHeader bytes.now)
        (λ version. (version ≡ version_byte bytes.now)
        × (starts_with nat_eq bytes.now (header_with version) ≡ true)) }
{
    let Some(version) = bytes.get(8) else {
        return None;
    };
    let header = [83, 84, 72, 74, 0, 0, 0, 1, *version, 0, 0, 0, 0, 0, 0, 0];
    if bytes.starts_with(&header) {
        Some(*version)
    } else {
        None
    }
}

/// Rows that a journal may have, and the place of the closing gate behind them.
#[derive(Drop)]
pub struct Rows {
    list: Vec<Row>,
    end: u64,
}

impl Model for Rows {
    ghost use Rattle.std.specs.Prelude.{◌≡◌, List, length};
    ghost use Rattle.gate_journal.specs.Rows.{journal_bytes, IsJournal};
    ghost use Rattle.gate_journal.specs.declared.row.Row.{Row};

    ghost Value = { List Row };

    ghost view = { λ r. r.list.items };

    ghost invariant = { λ r. IsJournal r.list.items
        × (r.end ≡ length (journal_bytes r.list.items)) };
}

impl Rows {
    /// No rows.
    pub fn new(alloc: Global) -> Rows
        ensures { result ≡ [] }
    {
        Rows {
            list: Vec::new(alloc),
            end: 16,
        }
    }

    /// The rows, lent.
    pub fn as_slice(&self) -> &[Row]
        ensures value { result.now ≡ self.now }
        ensures journal { IsJournal self.now }
    {
        self.list.as_slice()
    }

    /// The rows alone.
    pub fn into_vec(self) -> Vec<Row>
        ensures value { result.items ≡ self }
        ensures journal { IsJournal self }
    {
        self.list
    }

    /// The place of the closing gate.
    pub fn end(&self) -> u64
        ensures { result ≡ length (journal_bytes self.now) }
    {
        self.end
    }
}

/// Rows as entries, and the place of the closing gate behind them.
#[derive(Drop)]
pub struct Parsed {
    pub history: History,
    pub end: u64,
}

// The row of this version past an open gate at this place, where one stands there that may.
fn next_row(
    alloc: Global,
    version: u8,
    seats: &Seats,
    place: u64,
    past: &[u8],
) -> Result<Option<Row>, AllocError>
    ensures { IfOk result (λ o. (rows : List Row)
        → CountsRows rows seats.now.counts seats.now.uses
        → place ≡ length (journal_bytes rows)
        → MatchOption o (IsNoNext version rows past.now)
        (BeginsWithRow version rows past.now)) }
{
    let [session, kind, high, low, rest @ ..] = past else {
        return Ok(None);
    };
    let size = 256 * usize::from(*high) + usize::from(*low);
    if size > rest.len() {
        return Ok(None);
    }
    let Some(command) = read_command(alloc, *kind, &rest[..size])? else {
        return Ok(None);
    };
    if !command.is_in_version(version) || !seats.may_stand(*session, &command) {
        return Ok(None);
    }
    Ok(Some(Row {
        place,
        session: *session,
        by: u64::from(*session) + 1,
        command,
    }))
}

/// The row of this version that may stand next behind these rows, where the bytes past a gate begin
/// with one.
pub fn row_behind(
    alloc: Global,
    version: u8,
    rows: &Rows,
    past: &[u8],
) -> Result<Option<Row>, AllocError>
    ensures { IfOk result (λ o. MatchOption o (IsNoNext version rows.now past.now)
        (BeginsWithRow version rows.now past.now)) }
{
    let seats = Seats::of(rows.as_slice());
    next_row(alloc, version, &seats, rows.end, past)
}

/// The rows that the bytes spell.
pub fn read_rows(alloc: Global, bytes: &[u8]) -> Result<Rows, JournalFault>
    ensures ok { IfOk result (λ rows. SpellsRows bytes.now rows) }
    ensures exact { IfErr result (RefusesBytes bytes.now) }
{
    let Some(version) = version_in(bytes) else {
        return Err(JournalFault::NotJournal);
    };
    let mut rows = Vec::new(alloc);
    let mut seats = Seats::new();
    let mut place: usize = 16;
    let mut rest = &bytes[16..];
    while let [gate, past @ ..] = rest {
        if *gate != 1 {
            return Ok(Rows {
                list: rows,
                end: place as u64,
            });
        }
        let Some(row) = next_row(alloc, version, &seats, place as u64, past)? else {
            return Err(JournalFault::Corrupt(place as u64));
        };
        seats.count(row.session, &row.command);
        let size = 5 + row.command.payload_len();
        place += size;
        rest = &rest[size..];
        rows.push(row)?;
    }
    Err(JournalFault::Corrupt(place as u64))
}

/// The rows that the bytes spell, as entries, and the place of the closing gate.
pub fn parse(alloc: Global, bytes: &[u8]) -> Result<Parsed, JournalFault>
    ensures ok { IfOk result (λ p. SpellsRows bytes.now (rows_of p.history.list)
        × (p.end ≡ length (journal_bytes (rows_of p.history.list)))) }
    ensures fresh { IfOk result (λ p. p.history.list ≡ rows_kept (rows_of p.history.list)) }
    ensures exact { IfErr result (RefusesBytes bytes.now) }
{
    let Rows { list, end } = read_rows(alloc, bytes)?;
    let history = History::of(alloc, list)?;
    Ok(Parsed { history, end })
}
