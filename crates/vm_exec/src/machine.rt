//! The machine, and how it starts and goes on.

ghost use Rattle.std.specs.Prelude.{◌≡◌, ◌<◌, ℕ, List, [], length, IfOk, OnOk, Ok};
ghost use Rattle.vm_exec.specs.Answer.{Changes, Does, MakesValue};
ghost use Rattle.vm_exec.specs.Fault.{flowed};
ghost use Rattle.vm_exec.specs.Row.{IsPriced, charged, due, fetched, row, step_within};
ghost use Rattle.vm_exec.specs.Machine.{GoesOnFit, IsFit, IsMapped, IsSaving, IsSoundMachine};
ghost use Rattle.vm_exec.specs.Machine.{KeepsImage, no_heap, no_states};
ghost use Rattle.vm_exec.specs.Start as start;
ghost use Rattle.vm_exec.specs.Start.{IsOver, finished, started};
ghost use Rattle.vm_exec.specs.declared.text.Text.TheVariants as text;
ghost use Rattle.vm_flow.specs.Call.{function_called};
ghost use Rattle.vm_memory.specs.MemoryMap.{origin_of};
ghost use Rattle.vm_stack.specs.Chain.{Chain, HasFrame};

use crate::number::places;
use crate::perform::width_of;
use crate::random::Random;
use crate::step::{Step, Waiting};
use crate::text::Text;
use crate::trap::{BUDGET, no_memory, of_flow};
use crate::undo::Protection;
use glulx_image::Image;
use std::alloc::Global;
use vm_flow::call;
use vm_heap::Heap;
use vm_memory::{Memory, Trap};
use vm_operand::{Dest, Op, decode};
use vm_stack::Stack;
use vm_string::Cursor;
use vm_undo::Undo;

/// A story under way (Glulx 3.1.3, "Machine State").
#[derive(Drop)]
pub struct Machine<'i> {
    pub memory: Memory<'i>,
    pub stack: Stack,
    pub(crate) pc: u32,
    /// The I/O system: 0 drops output, 1 calls the function at the rock, 2 is Glk.
    pub(crate) mode: u32,
    pub(crate) rock: u32,
    pub(crate) string_table: u32,
    /// What goes out piece by piece before the next instruction.
    pub(crate) text: Text,
    /// Where the result goes that the last step asked for.
    pub(crate) waiting: Waiting,
    /// What the verify opcode stores.
    pub(crate) verified: u32,
    pub(crate) heap: Heap,
    pub(crate) undo: Undo<'i>,
    pub(crate) protection: Protection,
    pub(crate) random: Random,
    /// The header's start function and string table, to which a restart goes back.
    pub(crate) start_function: u32,
    pub(crate) first_table: u32,
}

impl<'i> Machine<'i> {
    /// The machine as an image's story begins: its start function is called without arguments.
    /// Faults 1, 3 and 12 as for a call.
    pub fn start(alloc: Global, image: &Image<'i>, seed: u64) -> Result<Machine<'i>, Trap>
        ensures value { MakesValue (started image.now seed) result }
        ensures fit { IfOk result (λ machine. IsFit machine) }
        ensures over { IfOk result (λ machine. IsOver image.now machine) }
        ensures seed { IfOk result (λ machine. machine.random.seed ≡ seed) }
    {
        let memory = image_memory(alloc, image)?;
        let mut stack = empty_stack(alloc, image)?;
        let undo = no_states(image);
        let pc = begin(alloc, &memory, &mut stack, image.start_function())?;
        Ok(Machine {
            memory,
            stack,
            pc,
            mode: 0,
            rock: 0,
            string_table: image.string_table(),
            text: Text::Off,
            waiting: Waiting::Store(Dest::Discard),
            verified: image.verify(),
            heap: Heap::new(alloc),
            undo,
            protection: Protection {
                start: 0,
                length: 0,
            },
            random: Random::new(seed),
            start_function: image.start_function(),
            first_table: image.string_table(),
        })
    }

    /// Stores the result of the call, the save or the restore that the last step asked for.
    pub fn finish(&mut self, _alloc: Global, value: u32) -> Result<(), Trap>
        ensures does { Changes (finished self.old value) self.new result }
        ensures fit { IsFit self.old → OnOk result (IsFit self.new) }
        ensures saving { IsSaving self.old → OnOk result (IsFit self.new) }
        ensures kept { IsFit self.old → OnOk result (KeepsImage self.old self.new) }
        ensures kept_saving { IsSaving self.old → OnOk result (KeepsImage self.old self.new) }
        ensures over { (image : List ℕ) → IsFit self.old → IsOver image self.old
            → OnOk result (IsOver image self.new) }
        ensures over_saving { (image : List ℕ) → IsSaving self.old → IsOver image self.old
            → OnOk result (IsOver image self.new) }
    {
        match self.waiting {
            Waiting::Store(to) => self.store(to, value),
            Waiting::Stub => self.finish_save(value),
        }
    }

    /// The next piece of the text in progress, or else the instruction at the PC: its row of the
    /// table, within so many ticks. Fault 24 where it costs more; else the row's fault.
    pub fn step(&mut self, alloc: Global, left: u64) -> Result<Step, Trap>
        requires { IsSoundMachine self.old }
        ensures does { Does (step_within left (row self.old)) self.new result }
        ensures fit { IfOk result (λ step. GoesOnFit self.new step) }
        ensures kept { OnOk result (KeepsImage self.old self.new) }
        ensures over { (image : List ℕ) → IsOver image self.old
            → OnOk result (IsOver image self.new) }
        ensures cost { IfOk result (λ step. IsPriced left step) }
    {
        if left == 0 {
            return Err(BUDGET);
        }
        match self.text {
            Text::Off => self.instruction(alloc, left),
            Text::Pieces { cursor, held } => self.piece(alloc, cursor, held, left),
            Text::Number { value, place, held } => self.digit(alloc, value, place, held, left),
        }
    }

    // One tick, and then the next piece of the string.
    fn piece(&mut self, alloc: Global, cursor: Cursor, held: bool, left: u64) -> Result<Step, Trap>
        requires { 0 < left }
        ensures does { Does
            (step_within left (charged (due self.old (text.Pieces cursor held))))
            self.new result }
        ensures fit { IsSoundMachine self.old → IfOk result (λ step. GoesOnFit self.new step) }
        ensures cost { IfOk result (λ step. IsPriced left step) }
    {
        self.text = Text::Off;
        let done = self.next_piece(alloc, cursor, held)?;
        Ok(done.step(done.cost + 1))
    }

    // One tick, and then the next character of the number, or what comes behind it.
    fn digit(
        &mut self,
        alloc: Global,
        value: u32,
        place: u32,
        held: bool,
        left: u64,
    ) -> Result<Step, Trap>
        requires some { 0 < left }
        requires sound { IsSoundMachine self.old }
        ensures does { Does
            (step_within left (charged (due self.old (text.Number value place held))))
            self.new result }
        ensures fit { IfOk result (λ step. GoesOnFit self.new step) }
        ensures cost { IfOk result (λ step. IsPriced left step) }
    {
        self.text = Text::Off;
        if place < places(value) {
            let done = self.next_digit(alloc, value, place, held)?;
            return Ok(done.step(done.cost + 1));
        }
        self.end_number(held)?;
        self.instruction(alloc, left)
    }

    // One tick, and then the instruction at the PC.
    fn instruction(&mut self, alloc: Global, left: u64) -> Result<Step, Trap>
        requires some { 0 < left }
        requires fit { IsFit self.old }
        ensures does { Does (step_within left (charged (fetched self.old))) self.new result }
        ensures fit { IfOk result (λ step. GoesOnFit self.new step) }
        ensures cost { IfOk result (λ step. IsPriced left step) }
    {
        let instr = decode(&self.memory, self.pc)?;
        let op = Op::of(instr.op);
        let loads = &instr.loads.items[..instr.loads.count as usize];
        let mut args = [0; 8];
        self.load_all(width_of(op), loads, 0, &mut args)?;
        self.pc = instr.next;
        self.run(alloc, op, &args, &instr.stores.items, left)
    }
}

// The memory of an image.
fn image_memory<'i>(alloc: Global, image: &Image<'i>) -> Result<Memory<'i>, Trap>
    ensures value { MakesValue (Ok (start.image_memory image.now)) result }
    ensures map { IfOk result (λ memory. IsMapped (origin_of memory)
        (length memory.bytes) no_heap (no_states (origin_of memory))) }
{
    let rom = &image.bytes()[..image.extstart() as usize];
    match Memory::new(alloc, rom, image.ramstart(), image.endmem()) {
        Ok(memory) => Ok(memory),
        Err(_) => Err(Trap::NoMemory),
    }
}

// No state is kept.
fn no_states<'i>(image: &Image<'i>) -> Undo<'i>
    ensures value { result ≡ no_states (origin_of (start.image_memory image.now)) }
{
    let rom = &image.bytes()[..image.extstart() as usize];
    Undo::new(rom, image.ramstart(), image.endmem())
}

// A stack with nothing on it.
fn empty_stack(alloc: Global, image: &Image<'_>) -> Result<Stack, Trap>
    ensures { MakesValue (Ok (start.empty_stack image.now)) result }
{
    Stack::with_size(alloc, image.stack_size()).map_err(no_memory)
}

// The start function is called without arguments.
pub(crate) fn begin(
    alloc: Global,
    memory: &Memory<'_>,
    stack: &mut Stack,
    at: u32,
) -> Result<u32, Trap>
    ensures does { Does (flowed (function_called memory.now stack.old at [])) stack.new result }
    ensures kept { stack.old.bytes ≡ [] → stack.old.frame ≡ 0
        → OnOk result (Chain stack.new × HasFrame stack.new) }
{
    call(alloc, memory, stack, at, &[]).map_err(of_flow)
}
