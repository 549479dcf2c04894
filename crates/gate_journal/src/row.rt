//! Rows of a journal (own).

ghost use Rattle.std.specs.Prelude.{◌≡◌, IfOk};

use crate::command::Command;
use std::alloc::{AllocError, Global};

/// A command that a session accepted, as the journal keeps it.
#[derive(Debug, Drop)]
pub struct Row {
    /// The place of its gate in the file, in bytes.
    pub place: u64,
    /// The session, below 64.
    pub session: u8,
    /// The number of the pass with which it was made: that of its session and 1.
    pub by: u64,
    pub command: Command,
}

impl Row {
    /// An equal row; an error where memory runs out.
    pub fn copy_of(&self, alloc: Global) -> Result<Row, AllocError>
        ensures { IfOk result (λ row. row ≡ self.now) }
    {
        Ok(Row {
            place: self.place,
            session: self.session,
            by: self.by,
            command: self.command.copy_of(alloc)?,
        })
    }
}
