//! Rows and faults in their order (own).

ghost use Rattle.std.specs.Prelude.{◌≡◌, ◌++◌, ◌<◌, ◌≤◌, [], ◌∷◌, IfOk, OnOk, MatchOption, length};
ghost use Rattle.std.specs.Prelude.{replicate, slice_get, None, Some, IsTrue, ◌↔◌};
ghost use Rattle.gate_journal.specs.Log.{rows_of, rows_kept};
ghost use Rattle.gate_journal.specs.Rows.{MayStand};
ghost use Rattle.gate_journal.specs.declared.entry.Entry.TheVariants.{Kept, Faulted};

use crate::command::Command;
use crate::fault::DiskFault;
use crate::mark::Mark;
use crate::row::Row;
use crate::seats::may_stand;
use std::alloc::{AllocError, Global};
use std::marker::Model;
use std::snapshot::Snapshot;

/// A list of entries: the rows apart, and marks that say where they stand among the faults.
#[derive(Drop)]
pub struct History {
    rows: Vec<Row>,
    marks: Vec<Mark>,
}

impl Model for History {
    ghost use Rattle.std.specs.Prelude.{◌≡◌, length, vec_len, vec_capacity, nat_lt, ◌&&◌};
    ghost use Rattle.gate_journal.specs.History.{Entries, rows_woven, count_rows};

    ghost Value = { Entries };

    ghost view = { λ h. record {
      list = rows_woven h.marks.items h.rows.items;
      room = nat_lt (vec_len h.rows) (vec_capacity h.rows)
          && nat_lt (vec_len h.marks) (vec_capacity h.marks);
    } };

    ghost invariant = { λ h. count_rows h.marks.items ≡ length h.rows.items };
}

fn row_at(rows: &[Row], index: u64) -> Option<&Row>
    ensures { MatchOption result (slice_get rows.now index ≡ None)
        (λ row. slice_get rows.now index ≡ Some row.now) }
{
    rows.get(index as usize)
}

/// A mark for each of so many rows.
fn row_marks(alloc: Global, count: usize) -> Result<Vec<Mark>, AllocError>
    ensures { IfOk result (λ v. v.items ≡ replicate count Mark.Row) }
{
    let mut made = Vec::new(alloc);
    for k in 0..count {
        made.push(Mark::Row)?;
    }
    Ok(made)
}

impl History {
    ghost use Rattle.std.specs.Prelude.{true};

    /// These rows, and no faults; an error where memory runs out.
    pub fn of(alloc: Global, rows: Vec<Row>) -> Result<History, AllocError>
        ensures { IfOk result (λ h. h.list ≡ rows_kept rows.items) }
    {
        let marks = row_marks(alloc, rows.len())?;
        Ok(History { rows, marks })
    }

    /// Makes room for an entry; an error where memory runs out.
    pub fn reserve(&mut self) -> Result<(), AllocError>
        ensures ok { OnOk result (self.new.room ≡ true) }
        ensures kept { self.new.list ≡ self.old.list }
    {
        self.rows.reserve(1)?;
        self.marks.reserve(1)?;
        Ok(())
    }

    /// Takes down a fault in the append of this row.
    pub fn note_fault(&mut self, row: &Row, from: u64, to: u64) -> DiskFault
        requires { self.old.room ≡ true }
        ensures value { (result.from ≡ from) × (result.to ≡ to) }
        ensures entry { self.new.list ≡ self.old.list ++ Faulted row.now from to ∷ [] }
    {
        let asked = Snapshot::of(row);
        let _ = self.marks.push(Mark::Fault { asked, from, to });
        DiskFault { from, to }
    }

    /// Takes a row down.
    pub fn note_row(&mut self, row: Row)
        requires { self.old.room ≡ true }
        ensures { self.new.list ≡ self.old.list ++ Kept row ∷ [] }
    {
        let _ = self.marks.push(Mark::Row);
        let _ = self.rows.push(row);
    }

    /// Whether a row of this session with this command may stand behind its rows.
    pub fn may_stand(&self, session: u8, command: &Command) -> bool
        ensures { IsTrue result ↔ MayStand (rows_of self.now.list) session command.now }
    {
        may_stand(&self.rows, session, command)
    }

    /// How many entries there are.
    pub fn len(&self) -> u64
        ensures { result ≡ length self.now.list }
    {
        self.marks.len() as u64
    }

    /// How many of them are rows.
    pub fn row_count(&self) -> u64
        ensures { result ≡ length (rows_of self.now.list) }
    {
        self.rows.len() as u64
    }

    /// The row of this index among the rows.
    pub fn row(&self, index: u64) -> Option<&Row>
        ensures { MatchOption result (slice_get (rows_of self.now.list) index ≡ None)
            (λ row. slice_get (rows_of self.now.list) index ≡ Some row.now) }
    {
        row_at(&self.rows, index)
    }
}
