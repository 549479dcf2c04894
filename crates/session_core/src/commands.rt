//! A session's history as a list (own).

ghost use Rattle.std.specs.Prelude.{◌≡◌, ◌++◌, ◌∷◌, [], IfOk, OnOk, OnErr};

use gate_journal::Command;
use std::alloc::{AllocError, Global};
use std::marker::Model;

/// Equal commands, in their order; an error where memory runs out.
pub fn copies_of(alloc: Global, commands: &[Command]) -> Result<Vec<Command>, AllocError>
    ensures { IfOk result (λ copies. copies.items ≡ commands.now) }
{
    let mut copies = Vec::new(alloc);
    for at in 0..commands.len() {
        copies.push(commands[at].copy_of(alloc)?)?;
    }
    Ok(copies)
}

/// Commands, oldest first.
#[derive(Debug, Drop)]
pub struct Commands {
    list: Vec<Command>,
}

impl Model for Commands {
    ghost use Rattle.std.specs.Prelude.{List};
    ghost use Rattle.gate_journal.specs.declared.command.Command.{Command};

    ghost Value = { List Command };

    ghost view = { λ c. c.list.items };
}

impl Commands {
    pub fn new(alloc: Global) -> Commands
        ensures { result ≡ [] }
    {
        Commands {
            list: Vec::new(alloc),
        }
    }

    pub fn as_slice(&self) -> &[Command]
        ensures { result.now ≡ self.now }
    {
        self.list.as_slice()
    }

    pub fn push(&mut self, command: Command) -> Result<(), AllocError>
        ensures ok { OnOk result (self.new ≡ self.old ++ command ∷ []) }
        ensures err { OnErr result (self.new ≡ self.old) }
    {
        self.list.push(command)?;
        Ok(())
    }
}
