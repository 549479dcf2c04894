//! The rows of a session among a journal's (own).

ghost use Rattle.std.specs.Prelude.{◌≡◌, IfOk};
ghost use Rattle.gate_journal.specs.Rows.{commands_of};
ghost use Rattle.session_saves.specs.Agreement.{last_row, opens_of};

use gate_journal::{Command, Row};
use std::alloc::{AllocError, Global};

/// The commands of the session's rows, in their order.
pub fn commands_of(alloc: Global, rows: &[Row], session: u8) -> Result<Vec<Command>, AllocError>
    ensures { IfOk result (λ commands. commands.items ≡ commands_of rows.now session) }
{
    let mut commands = Vec::new(alloc);
    for at in 0..rows.len() {
        if rows[at].session == session {
            commands.push(rows[at].command.copy_of(alloc)?)?;
        }
    }
    Ok(commands)
}

/// The place of the session's last OPEN row.
pub fn last_open(rows: &[Row], session: u8) -> Option<u64>
    ensures { result ≡ last_row (opens_of rows.now session) }
{
    let mut place = None;
    for at in 0..rows.len() {
        if rows[at].session == session && matches!(rows[at].command, Command::Open { .. }) {
            place = Some(rows[at].place);
        }
    }
    place
}
