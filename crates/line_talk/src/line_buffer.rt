//! The line that has begun.
ghost use Rattle.std.specs.Prelude.{◌≡◌, [], Some, OnOk};
ghost use Rattle.std.specs.Option.{option_map};
ghost use Rattle.line_talk.specs.Hearing.{longer_line};
ghost use Rattle.line_talk.specs.Lines.{IsHeard};

use std::alloc::{AllocError, Global};
use std::marker::Model;

/// The most bytes of a line without its LF.
const LONGEST: usize = 2047;

/// The line that has begun, or none where it is too long and only its end is waited for.
#[derive(Drop)]
pub struct LineBuffer {
    bytes: Vec<u8>,
    long: bool,
}

impl Model for LineBuffer {
    ghost use Rattle.std.specs.Prelude.{◌≤◌, List, ℕ, Option, None, Some};
    ghost use Rattle.std.specs.Prelude.{if◌then◌else◌, vec_len};

    ghost Value = { Option (List ℕ) };

    ghost view = { λ line. if line.long then None else Some line.bytes.items };

    ghost invariant = { λ line. vec_len line.bytes ≤ 2047 };
}

impl LineBuffer {
    /// An empty line.
    pub fn new(alloc: Global) -> LineBuffer
        ensures { result ≡ Some [] }
    {
        LineBuffer {
            bytes: Vec::new(alloc),
            long: false,
        }
    }

    /// One byte more. Of a line that is too long no byte is kept.
    pub fn push(&mut self, byte: u8) -> Result<(), AllocError>
        ensures { OnOk result (self.new ≡ longer_line self.old byte) }
    {
        if self.long {
            return Ok(());
        }
        if self.bytes.len() >= LONGEST {
            self.long = true;
            return Ok(());
        }
        self.bytes.push(byte)?;
        Ok(())
    }

    /// The line, or none where it is too long.
    pub fn line(&self) -> Option<&[u8]>
        ensures value { option_map (λ line. line.now) result ≡ self.now }
        ensures within { IsHeard self.now }
    {
        if self.long { None } else { Some(&self.bytes) }
    }

    /// An empty line again.
    pub fn clear(&mut self)
        ensures { self.new ≡ Some [] }
    {
        self.bytes.clear();
        self.long = false;
    }
}
