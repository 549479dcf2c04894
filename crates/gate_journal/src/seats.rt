//! What is counted of each session while rows are read (own).

ghost use Rattle.std.specs.Prelude.{◌≡◌, ◌++◌, ◌∷◌, ◌↔◌, [], ◌<◌, IsTrue, List};
ghost use Rattle.gate_journal.specs.Rows.{MayStand};
ghost use Rattle.gate_journal.specs.Seats.{CountsRows};
ghost use Rattle.gate_journal.specs.declared.row.Row.{Row};

use crate::command::Command;
use crate::row::Row;

/// The most rows of one session.
const MAX_ROWS: u16 = 8192;

/// Of each session the number of its rows, up to 8,192, and whether it is in use: 1, or 0 where it
/// is free.
#[derive(Drop)]
pub struct Seats {
    pub counts: [u16; 64],
    pub uses: [u8; 64],
}

impl Seats {
    /// Those of no rows.
    pub fn new() -> Seats
        ensures { CountsRows [] result.counts result.uses }
    {
        Seats {
            counts: [0; 64],
            uses: [0; 64],
        }
    }

    /// Those of these rows.
    pub fn of(rows: &[Row]) -> Seats
        ensures { CountsRows rows.now result.counts result.uses }
    {
        let mut seats = Seats::new();
        for row in rows {
            if row.session < 64 {
                seats.count(row.session, &row.command);
            }
        }
        seats
    }

    /// Whether a row of this session with this command may stand behind the rows that were counted.
    pub fn may_stand(&self, session: u8, command: &Command) -> bool
        ensures { (rows : List Row) → CountsRows rows self.now.counts self.now.uses
            → (IsTrue result ↔ MayStand rows session command.now) }
    {
        if session >= 64 || !command.is_in_range() {
            return false;
        }
        let at = usize::from(session);
        let free = self.uses[at] == 0;
        let follows = if command.is_open() { free } else { !free };
        follows && self.counts[at] < MAX_ROWS
    }

    /// Counts a row of this session with this command.
    pub fn count(&mut self, session: u8, command: &Command)
        requires { session < 64 }
        ensures { (rows : List Row) (r : Row)
            → r.session ≡ session → r.command ≡ command.now
            → CountsRows rows self.old.counts self.old.uses
            → CountsRows (rows ++ r ∷ []) self.new.counts self.new.uses }
    {
        let at = usize::from(session);
        self.counts[at] = self.counts[at].saturating_add(1).min(MAX_ROWS);
        self.uses[at] = if command.is_close() { 0 } else { 1 };
    }
}

/// Whether a row of this session with this command may stand behind the rows. It looks at all.
pub fn may_stand(rows: &[Row], session: u8, command: &Command) -> bool
    ensures { IsTrue result ↔ MayStand rows.now session command.now }
{
    Seats::of(rows).may_stand(session, command)
}
