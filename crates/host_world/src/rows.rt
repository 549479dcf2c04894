//! The rows of a host's journal (own).

ghost use Rattle.std.specs.Prelude.{◌≡◌, ◌+◌, ◌<◌, ◌^◌, ◌++◌, ◌∷◌, [], length, IfOk, OnOk};
ghost use Rattle.gate_journal.specs.Command.{IsCommand};
ghost use Rattle.gate_journal.specs.Log.{next_row};
ghost use Rattle.gate_journal.specs.Rows.{commands_of, journal_bytes};
ghost use Rattle.session_saves.specs.Agreement.{last_row, opens_of};
ghost use Rattle.host_world.specs.Reading.{past_gate};

use gate_journal::{Command, Row, Rows, row_bytes};
use session_core::is_open;
use std::alloc::{AllocError, Global};
use std::marker::Model;
use story_text::Bytes;

/// A row that an append is to write or has written: the place of its gate, its session, and its
/// command, whose fields are in their ranges.
#[derive(Drop)]
pub struct NewRow {
    place: u128,
    session: u8,
    command: Command,
}

impl Model for NewRow {
    ghost use Rattle.std.specs.Prelude.{◌+◌};
    ghost use Rattle.gate_journal.specs.Command.{IsCommand};
    ghost use Rattle.gate_journal.specs.declared.row.Row.{Row};

    ghost Value = { Row };

    ghost view = { λ r. record {
      place = r.place;
      session = r.session;
      by = r.session + 1;
      command = r.command;
    } };

    ghost invariant = { λ r. IsCommand r.command };
}

impl NewRow {
    /// The row that was read.
    pub fn of(row: Row) -> NewRow
        requires by { row.by ≡ row.session + 1 }
        requires ranges { IsCommand row.command }
        ensures { result ≡ row }
    {
        NewRow {
            place: u128::from(row.place),
            session: row.session,
            command: row.command,
        }
    }

    /// The session that accepted its command.
    pub fn session(&self) -> u8
        ensures { result ≡ self.now.session }
    {
        self.session
    }

    /// An equal row; an error where memory runs out.
    pub fn copy_of(&self, alloc: Global) -> Result<NewRow, AllocError>
        ensures { IfOk result (λ row. row ≡ self.now) }
    {
        Ok(NewRow {
            place: self.place,
            session: self.session,
            command: self.command.copy_of(alloc)?,
        })
    }

    /// What an append writes past its gate: the row, and the next gate closed.
    pub fn past_gate(&self, alloc: Global) -> Result<Bytes, AllocError>
        ensures { IfOk result (λ bytes. bytes ≡ past_gate self.now) }
    {
        Ok(Bytes::of(row_bytes(alloc, self.session, &self.command)?))
    }
}

/// Rows, and the place of the closing gate: those that an opening found, and those added since.
#[derive(Drop)]
pub struct JournalRows {
    found: Rows,
    added: Vec<NewRow>,
    end: u128,
}

impl Model for JournalRows {
    ghost use Rattle.std.specs.Prelude.{◌≡◌, ◌≤◌, ◌+◌, ◌*◌, ◌^◌, ◌++◌, List, length};
    ghost use Rattle.gate_journal.specs.Rows.{journal_bytes};
    ghost use Rattle.gate_journal.specs.declared.row.Row.{Row};

    ghost Value = { List Row };

    ghost view = { λ j. j.found ++ j.added.items };

    ghost invariant = { λ j. (j.end ≡ length (journal_bytes (j.found ++ j.added.items)))
        × (j.end ≤ 2 ^ 64 + 4109 * length j.added.items) };
}

impl JournalRows {
    /// Those that an opening found.
    pub fn of(alloc: Global, found: Rows) -> JournalRows
        ensures { result ≡ found }
    {
        let end = u128::from(found.end());
        JournalRows {
            found,
            added: Vec::new(alloc),
            end,
        }
    }

    /// The place of the closing gate.
    pub fn end(&self) -> u128
        ensures value { result ≡ length (journal_bytes self.now) }
        ensures within { result < 2 ^ 100 }
    {
        self.end
    }

    /// The row that is to stand next.
    pub fn next(&self, session: u8, command: Command) -> NewRow
        requires { IsCommand command }
        ensures { result ≡ next_row self.now session command }
    {
        NewRow {
            place: self.end,
            session,
            command,
        }
    }

    /// Takes a row.
    pub fn push(&mut self, row: NewRow) -> Result<(), AllocError>
        ensures { OnOk result (self.new ≡ self.old ++ row ∷ []) }
    {
        let size = 5 + row.command.payload_len() as u128;
        self.added.push(row)?;
        self.end += size;
        Ok(())
    }
    /// The commands of a session's rows, oldest first.
    pub fn commands_of(&self, alloc: Global, s: u8) -> Result<Vec<Command>, AllocError>
        ensures { IfOk result (λ commands. commands.items ≡ commands_of self.now s) }
    {
        let (found, added) = (self.found.as_slice(), self.added.as_slice());
        let mut commands = Vec::new(alloc);
        for row in found {
            if row.session == s {
                commands.push(row.command.copy_of(alloc)?)?;
            }
        }
        for new in added {
            if new.session == s {
                commands.push(new.command.copy_of(alloc)?)?;
            }
        }
        Ok(commands)
    }

    /// The place of a session's last OPEN row.
    pub fn last_open(&self, s: u8) -> Option<u128>
        ensures { result ≡ last_row (opens_of self.now s) }
    {
        let (found, added) = (self.found.as_slice(), self.added.as_slice());
        let mut place = None;
        for row in found {
            if row.session == s && is_open(&row.command) {
                place = Some(u128::from(row.place));
            }
        }
        for new in added {
            if new.session == s && is_open(&new.command) {
                place = Some(new.place);
            }
        }
        place
    }
}
