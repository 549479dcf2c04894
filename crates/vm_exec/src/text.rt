//! Strings in progress, piece by piece.

ghost use Rattle.std.specs.Prelude.{◌≡◌, ◌≤◌, ◌<◌, ◌+◌, List, ℕ, [], ◌∷◌, ◌++◌, IfErr, IfOk, OnOk};
ghost use Rattle.vm_exec.specs.Answer.{Changes, MakesList};
ghost use Rattle.vm_exec.specs.Machine.{IsFit, StaysFit};
ghost use Rattle.vm_exec.specs.Rows.Text as rows;
ghost use Rattle.vm_exec.specs.Rows.Work.{DoesAtNoCost};
ghost use Rattle.vm_stack.specs.Chain.{IsReady};

use crate::Machine;
use crate::arguments::keep;
use crate::step::{Done, Out};
use crate::text_stub::string_stub;
use crate::trap::BAD_STRING;
use std::alloc::Global;
use vm_memory::{Memory, Trap};
use vm_string::{Cursor, Piece, next_piece};

/// A text that goes out piece by piece: a string from a cursor on, or the characters of a number
/// from a place on. It is held once the stub for the code behind it is on the stack.
#[derive(Clone, Copy, Debug, PartialEq, Eq)]
pub enum Text {
    Off,
    Pieces { cursor: Cursor, held: bool },
    Number { value: u32, place: u32, held: bool },
}

impl<'i> Machine<'i> {
    /// A character of a text goes to Glk, or nowhere.
    pub(crate) fn show(&self, character: u32) -> Result<Done, Trap>
        ensures { DoesAtNoCost (rows.shows self.now character) self.now result }
    {
        if self.mode == 2 {
            self.tell(Out::Char(character))
        } else {
            self.tell(Out::Ran)
        }
    }

    /// A string begins, before the first byte of its object.
    pub(crate) fn begin(&mut self, at: u32, held: bool) -> Result<Done, Trap>
        ensures does { DoesAtNoCost (rows.begins_string self.old at held) self.new result }
        ensures fit { IsFit self.old → IfOk result (λ done. StaysFit self.new done.out) }
    {
        let cursor = Cursor {
            kind: 0,
            at,
            bit: 0,
        };
        self.text = Text::Pieces { cursor, held };
        self.tell(Out::Ran)
    }

    // A string makes way at a cursor.
    fn pause(&mut self, cursor: Cursor, held: bool) -> Result<(), Trap>
        ensures does { Changes (rows.paused self.old cursor held) self.new result }
        ensures fit { IsFit self.old → OnOk result (IsFit self.new) }
        ensures ready { IsFit self.old → OnOk result (IsReady self.new.stack) }
    {
        self.suspend(held, string_stub(cursor.kind), cursor.bit, cursor.at)
    }

    // A function is called, over the stubs of a string that goes on at a cursor.
    fn call_from(
        &mut self,
        alloc: Global,
        at: u32,
        args: &[u32],
        cursor: Cursor,
        held: bool,
    ) -> Result<Done, Trap>
        ensures does { DoesAtNoCost (rows.calls_from self.old at args.now cursor held)
            self.new result }
        ensures fit { IsFit self.old → IfOk result (λ done. StaysFit self.new done.out) }
    {
        self.pause(cursor, held)?;
        self.enter(alloc, at, args)
    }

    // A character of a string that goes on at a cursor.
    fn say(
        &mut self,
        alloc: Global,
        character: u32,
        cursor: Cursor,
        held: bool,
    ) -> Result<Done, Trap>
        ensures does { DoesAtNoCost (rows.says self.old character cursor held) self.new result }
        ensures fit { IsFit self.old → IfOk result (λ done. StaysFit self.new done.out) }
    {
        if self.mode == 1 {
            return self.call_from(alloc, self.rock, &[character], cursor, held);
        }
        self.text = Text::Pieces { cursor, held };
        self.show(character)
    }

    // A string in a string begins.
    fn nest(&mut self, at: u32, cursor: Cursor, held: bool) -> Result<Done, Trap>
        ensures does { DoesAtNoCost (rows.nests self.old at cursor held) self.new result }
        ensures fit { IsFit self.old → IfOk result (λ done. StaysFit self.new done.out) }
    {
        self.pause(cursor, held)?;
        self.begin(at, true)
    }

    // An object that a string refers to, with a count of arguments at an address.
    fn refer(
        &mut self,
        alloc: Global,
        at: u32,
        args_at: u32,
        args: u32,
        cursor: Cursor,
        held: bool,
    ) -> Result<Done, Trap>
        ensures does { DoesAtNoCost
            (rows.refers_to_object self.old at args_at args cursor held)
            self.new result }
        ensures fit { IsFit self.old → IfOk result (λ done. StaysFit self.new done.out) }
    {
        match self.memory.read1(at)? {
            0xE0 | 0xE1 | 0xE2 => self.nest(at, cursor, held),
            0xC0 | 0xC1 => {
                let args = read_words(alloc, &self.memory, args_at, args)?;
                self.call_from(alloc, at, &args, cursor, held)
            }
            _ => Err(BAD_STRING),
        }
    }

    // The end of a string.
    fn end(&mut self, held: bool) -> Result<Done, Trap>
        ensures does { DoesAtNoCost (rows.ends_string self.old held) self.new result }
        ensures fit { IsFit self.old → IfOk result (λ done. StaysFit self.new done.out) }
    {
        if held {
            let stub = self.pop_stub()?;
            self.resume_text(stub)?;
        }
        self.tell(Out::Ran)
    }

    /// The next piece of a string.
    pub(crate) fn next_piece(
        &mut self,
        alloc: Global,
        cursor: Cursor,
        held: bool,
    ) -> Result<Done, Trap>
        ensures does { DoesAtNoCost (rows.string_rule self.old cursor held) self.new result }
        ensures fit { IsFit self.old → IfOk result (λ done. StaysFit self.new done.out) }
    {
        let (piece, after) = next_piece(&self.memory, self.string_table, cursor)?;
        match piece {
            Piece::Char(character) => self.say(alloc, character, after, held),
            Piece::Call { at, args_at, args } => {
                self.refer(alloc, at, args_at, args, after, held)
            }
            Piece::End => self.end(held),
        }
    }
}

// So many words from an address on. Fault 1 at the first that isn't in memory.
fn read_words(alloc: Global, memory: &Memory<'_>, at: u32, count: u32) -> Result<Vec<u32>, Trap>
    ensures { MakesList (rows.words_at memory.now at count) result }
{
    let mut words = Vec::new(alloc);
    let mut place = at;
    for _ in 0..count {
        let word = match memory.read4(place) {
            Ok(word) => word,
            Err(fault) => return Err(Trap::from(fault)),
        };
        keep(&mut words, word)?;
        place += 4;
    }
    Ok(words)
}
