//! The call stubs of texts.

ghost use Rattle.std.specs.Prelude.{◌≡◌, ◌≢◌, IfOk, OnOk, Ok, Err};
ghost use Rattle.vm_exec.specs.Answer.{Changes, Does};
ghost use Rattle.vm_exec.specs.Machine.{IsFit, IsSoundMachine};
ghost use Rattle.vm_exec.specs.TextStub as stubs;
ghost use Rattle.vm_memory.specs.declared.fault.Trap.TheVariants.{NoMemory};
ghost use Rattle.vm_stack.specs.Chain.{IsReady};

use crate::Machine;
use crate::number::places;
use crate::text::Text;
use crate::trap::{BAD_STUB, of_stack};
use vm_memory::Trap;
use vm_stack::Stub;
use vm_string::Cursor;

impl<'i> Machine<'i> {
    // A stub for the current frame.
    fn push_stub(&mut self, kind: u32, at: u32, pc: u32) -> Result<(), Trap>
        ensures does { Changes (stubs.stubbed self.old kind at pc) self.new result }
        ensures fit { IsFit self.old → OnOk result (IsFit self.new) }
        ensures ready { IsFit self.old → OnOk result (IsReady self.new.stack) }
    {
        let frame = self.stack.frame();
        let stub = Stub {
            kind,
            at,
            pc,
            frame,
        };
        self.stack.push_stub(stub).map_err(of_stack)
    }

    // The stub for the code behind the text, which is pushed once.
    fn push_end(&mut self, held: bool) -> Result<(), Trap>
        ensures does { Changes (stubs.with_end self.old held) self.new result }
        ensures fit { IsFit self.old → OnOk result (IsFit self.new) }
    {
        if held {
            Ok(())
        } else {
            self.push_stub(0x11, 0, self.pc)
        }
    }

    /// A text makes way: a stub for the code behind it and one for what is left of it are on top.
    /// Fault 3 where they don't fit.
    pub(crate) fn suspend(&mut self, held: bool, kind: u32, at: u32, pc: u32) -> Result<(), Trap>
        ensures does { Changes (stubs.suspended self.old held kind at pc) self.new result }
        ensures fit { IsFit self.old → OnOk result (IsFit self.new) }
        ensures ready { IsFit self.old → OnOk result (IsReady self.new.stack) }
    {
        self.push_end(held)?;
        self.push_stub(kind, at, pc)
    }

    /// Takes the stub on top. Fault 13 where it is for another frame.
    pub(crate) fn pop_stub(&mut self) -> Result<Stub, Trap>
        ensures does { Does (stubs.unstubbed self.old) self.new result }
        ensures refusal { result ≢ Err NoMemory }
        ensures fit { IsFit self.old → OnOk result (IsFit self.new) }
    {
        let frame = self.stack.frame();
        match self.stack.take_stub() {
            Ok(stub) if stub.frame == frame => Ok(stub),
            Ok(_) => Err(BAD_STUB),
            Err(fault) => Err(of_stack(fault)),
        }
    }

    /// The code goes on behind a number.
    pub(crate) fn end_number(&mut self, held: bool) -> Result<(), Trap>
        ensures does { Changes (stubs.number_over self.old held) self.new result }
        ensures refusal { result ≢ Err NoMemory }
        ensures fit { IsFit self.old → OnOk result (IsFit self.new) }
    {
        if !held {
            return Ok(());
        }
        let stub = self.pop_stub()?;
        if stub.kind != 0x11 {
            return Err(BAD_STUB);
        }
        self.pc = stub.pc;
        Ok(())
    }

    /// What is left of a number from a place on, or the code behind it.
    pub(crate) fn go_on_number(&mut self, value: u32, place: u32, held: bool) -> Result<(), Trap>
        ensures does { Changes (stubs.number_on self.old value place held) self.new result }
        ensures refusal { result ≢ Err NoMemory }
        ensures fit { IsFit self.old → OnOk result (IsSoundMachine self.new) }
    {
        if place < places(value) {
            self.text = Text::Number { value, place, held };
            return Ok(());
        }
        self.end_number(held)
    }

    // What is left of a string of this kind, at the place that a stub names.
    fn go_on_string(&mut self, kind: u32, stub: Stub) -> Result<(), Trap>
        ensures does { Changes (stubs.string_on self.old kind stub) self.new result }
        ensures refusal { result ≢ Err NoMemory }
        ensures fit { IsFit self.old → OnOk result (IsSoundMachine self.new) }
    {
        let cursor = Cursor {
            kind,
            at: stub.pc,
            bit: stub.at,
        };
        self.text = Text::Pieces { cursor, held: true };
        Ok(())
    }

    fn go_on_at(&mut self, pc: u32) -> Result<(), Trap>
        ensures does { Changes (Ok (record self.old { pc = pc })) self.new result }
        ensures refusal { result ≢ Err NoMemory }
        ensures fit { IsFit self.old → OnOk result (IsSoundMachine self.new) }
    {
        self.pc = pc;
        Ok(())
    }

    /// The text goes on at a stub, or the code behind it. Fault 13 for a stub of no text.
    #[tactic(auto, unfolding(crate::specs::TextStub::text_on))]
    pub(crate) fn resume_text(&mut self, stub: Stub) -> Result<(), Trap>
        ensures does { Changes (stubs.text_on self.old stub) self.new result }
        ensures refusal { result ≢ Err NoMemory }
        ensures fit { IsFit self.old → OnOk result (IsSoundMachine self.new) }
    {
        match stub.kind {
            0x10 => self.go_on_string(0xE1, stub),
            0x11 => self.go_on_at(stub.pc),
            0x12 => self.go_on_number(stub.pc, stub.at, true),
            0x13 => self.go_on_string(0xE0, stub),
            0x14 => self.go_on_string(0xE2, stub),
            _ => Err(BAD_STUB),
        }
    }
}

/// The type of the stub that goes on with a string of this kind.
pub(crate) fn string_stub(kind: u32) -> u32
    ensures { result ≡ stubs.string_stub kind }
{
    match kind {
        0xE1 => 0x10,
        0xE0 => 0x13,
        _ => 0x14,
    }
}
