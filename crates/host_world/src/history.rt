//! The history of a session (own).

ghost use Rattle.std.specs.Prelude.{◌≡◌, ◌≤◌, length, IfOk, OnOk};
ghost use Rattle.gate_journal.specs.Rows.{commands_of};
ghost use Rattle.session_core.specs.Turning.{commands_in};
ghost use Rattle.host_world.specs.Sessions.{history_found, with_entry};

use gate_journal::{Command, Rows};
use session_core::Entry;
use std::alloc::{AllocError, Global};
use std::marker::Model;

/// The entries of a session, oldest first; at most 8,192 commands are among them.
#[derive(Drop)]
pub struct History {
    entries: Vec<Entry>,
}

impl Model for History {
    ghost use Rattle.std.specs.Prelude.{◌≤◌, List, length};
    ghost use Rattle.session_core.specs.Turning.{commands_in};
    ghost use Rattle.session_core.specs.declared.entry.Entry.{Entry};

    ghost Value = { List Entry };

    ghost view = { λ h. h.entries.items };

    ghost invariant = { λ h. length (commands_in h.entries.items) ≤ 8192 };
}

// The commands that the entries accepted, oldest first.
fn commands_in(alloc: Global, entries: &[Entry]) -> Result<Vec<Command>, AllocError>
    ensures { IfOk result (λ commands. commands.items ≡ commands_in entries.now) }
{
    let mut commands = Vec::new(alloc);
    for entry in entries {
        if let Entry::Accepted { command, .. } = entry {
            commands.push(command.copy_of(alloc)?)?;
        }
    }
    Ok(commands)
}

impl History {
    /// The history that an opening makes of a session's rows.
    pub fn found(alloc: Global, rows: &Rows, s: u8) -> Result<History, AllocError>
        ensures { IfOk result (λ history. history ≡ history_found (commands_of rows.now s)) }
    {
        let mut entries = Vec::new(alloc);
        for row in rows.as_slice() {
            if row.session == s {
                let command = row.command.copy_of(alloc)?;
                entries.push(Entry::Accepted { by: 0, command })?;
            }
        }
        Ok(History { entries })
    }

    /// The commands that it accepted, oldest first.
    pub fn commands(&self, alloc: Global) -> Result<Vec<Command>, AllocError>
        ensures value { IfOk result (λ commands. commands.items ≡ commands_in self.now) }
        ensures few { IfOk result (λ commands. length commands.items ≤ 8192) }
    {
        commands_in(alloc, &self.entries)
    }

    /// Takes an entry, if there is one.
    pub fn take(&mut self, entry: Option<Entry>) -> Result<(), AllocError>
        requires { length (commands_in (with_entry self.old entry)) ≤ 8192 }
        ensures { OnOk result (self.new ≡ with_entry self.old entry) }
    {
        if let Some(entry) = entry {
            self.entries.push(entry)?;
        }
        Ok(())
    }
}
