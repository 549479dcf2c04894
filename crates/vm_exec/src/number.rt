//! Numbers in progress, character by character.

ghost use Rattle.std.specs.Prelude.{◌≡◌, ◌≤◌, ◌<◌, ◌+◌, ◌^◌, length, slice_index, IfOk};
ghost use Rattle.std.specs.Fmt.{decimal};
ghost use Rattle.vm_exec.specs.Machine.{IsFit, IsSoundMachine, StaysFit};
ghost use Rattle.vm_exec.specs.Number.{number_text};
ghost use Rattle.vm_exec.specs.Rows.Text as rows;
ghost use Rattle.vm_exec.specs.Rows.Work.{DoesAtNoCost};
ghost use Rattle.vm_exec.specs.TextStub.{number_left};

use crate::Machine;
use crate::step::{Done, Out};
use crate::text::Text;
use std::alloc::Global;
use vm_memory::Trap;

impl<'i> Machine<'i> {
    /// A number begins.
    pub(crate) fn begin_number(&mut self, value: u32) -> Result<Done, Trap>
        ensures does { DoesAtNoCost (rows.numbers self.old value) self.new result }
        ensures fit { IsFit self.old → IfOk result (λ done. StaysFit self.new done.out) }
    {
        self.text = Text::Number {
            value,
            place: 0,
            held: false,
        };
        self.tell(Out::Ran)
    }

    // A number makes way to the function at the rock.
    fn filter_number(
        &mut self,
        alloc: Global,
        value: u32,
        place: u32,
        held: bool,
    ) -> Result<Done, Trap>
        ensures does { DoesAtNoCost (rows.number_calls self.old value place held) self.new result }
        ensures fit { IsFit self.old → IfOk result (λ done. StaysFit self.new done.out) }
    {
        self.suspend(held, 0x12, place.wrapping_add(1), value)?;
        self.enter(alloc, self.rock, &[character(value, place)])
    }

    /// The next character of a number.
    pub(crate) fn next_digit(
        &mut self,
        alloc: Global,
        value: u32,
        place: u32,
        held: bool,
    ) -> Result<Done, Trap>
        ensures does { DoesAtNoCost (rows.number_rule self.old value place held) self.new result }
        ensures fit { IsFit self.old → IfOk result (λ done. StaysFit self.new done.out) }
    {
        if self.mode == 1 {
            return self.filter_number(alloc, value, place, held);
        }
        self.leave_number(value, place.wrapping_add(1), held);
        self.show(character(value, place))
    }

    // What is left of a number from a place on; its end too, where a stub is on the stack for it.
    fn leave_number(&mut self, value: u32, place: u32, held: bool)
        ensures value { self.new ≡ number_left self.old value place held }
        ensures fit { IsFit self.old → IsSoundMachine self.new }
    {
        if held || place < places(value) {
            self.text = Text::Number { value, place, held };
        }
    }
}

/// How many characters a signed number has.
pub(crate) fn places(value: u32) -> u32
    ensures value { result ≡ length (number_text value) }
{
    if value < 0x8000_0000 {
        digits(value)
    } else {
        digits(value.wrapping_neg()) + 1
    }
}

/// The character of a signed number at a place; 0 past the last.
pub(crate) fn character(value: u32, place: u32) -> u32
    ensures value { result ≡ slice_index (number_text value) place }
{
    if place >= places(value) {
        0
    } else if value < 0x8000_0000 {
        digit(value, place)
    } else if place == 0 {
        u32::from(b'-')
    } else {
        digit(value.wrapping_neg(), place - 1)
    }
}

// How many digits a number has.
fn digits(number: u32) -> u32
    ensures value { result ≡ length (decimal number) }
    ensures limit { result ≤ 10 }
    ensures least { 1 ≤ result }
{
    match number {
        0..10 => 1,
        10..100 => 2,
        100..1_000 => 3,
        1_000..10_000 => 4,
        10_000..100_000 => 5,
        100_000..1_000_000 => 6,
        1_000_000..10_000_000 => 7,
        10_000_000..100_000_000 => 8,
        100_000_000..1_000_000_000 => 9,
        _ => 10,
    }
}

// The digit at a place, from the left.
fn digit(number: u32, place: u32) -> u32
    requires { place < length (decimal number) }
    ensures value { result ≡ slice_index (decimal number) place }
{
    let last = digits(number) - 1;
    number / power(last - place) % 10 + u32::from(b'0')
}

// A power of ten.
fn power(exponent: u32) -> u32
    requires { exponent < 10 }
    ensures value { result ≡ 10 ^ exponent }
    ensures positive { 0 < result }
{
    match exponent {
        0 => 1,
        1 => 10,
        2 => 100,
        3 => 1_000,
        4 => 10_000,
        5 => 100_000,
        6 => 1_000_000,
        7 => 10_000_000,
        8 => 100_000_000,
        _ => 1_000_000_000,
    }
}
