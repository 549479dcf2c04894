//! The states that undo keeps.

ghost use Rattle.std.specs.Prelude.{◌≡◌, ◌≤◌, ◌<◌, ◌%◌, [], IsTrue, IfOk, IfSome, OnErr, OnOk};
ghost use Rattle.std.specs.Prelude.{All, length, map, None, Some, true};
ghost use Rattle.vm_heap.specs.HeapMap.{is_heap};
ghost use Rattle.vm_memory.specs.MemoryMap.{Origin, origin_of};
ghost use Rattle.vm_undo.specs.Contents.{IsContents, memory_of_contents};
ghost use Rattle.vm_undo.specs.UndoList as list;

use crate::contents::{cmem_read, cmem_write};
use crate::fits::is_memory_of;
use crate::kept::{
    Contents, KeptState, add, are_held, are_kept, are_within, newest, states_in, take_newest,
    weight_of,
};
use crate::runs::RunsFault;
use crate::saved::Saved;
use std::alloc::{AllocError, Global};
use std::marker::Model;
use vm_memory::{MAX_SIZE, Memory};
use vm_stack::MAX_STACK;

/// How many states undo keeps at most.
pub const MAX_STATES: u32 = 16;

/// What its states weigh together at most.
pub const MAX_WEIGHT: u32 = 16_777_216;

/// What a save came to.
#[derive(Clone, Copy, Debug, PartialEq, Eq)]
pub enum Kept {
    Kept,
    /// The state weighs too much.
    TooLarge,
}

/// The states of a story that undo keeps, seen by contracts as their list, the oldest first, beside
/// the image. Each is kept as the contents of its memory.
#[derive(Drop)]
pub struct Undo<'i> {
    rom: &'i [u8],
    ramstart: u32,
    endmem: u32,
    kept: Option<Vec<KeptState>>,
}

impl<'i> Model for Undo<'i> {
    ghost use Rattle.std.specs.Prelude.{map};
    ghost use Rattle.vm_undo.specs.KeptList.{kept_in};
    ghost use Rattle.vm_undo.specs.UndoList.{KeepsStates, UndoList, state_of};

    ghost Value = { UndoList };

    ghost view = { λ u. record {
      origin = record { ramstart = u.ramstart; rom = u.rom.now; endmem = u.endmem };
      states = map (state_of (record { ramstart = u.ramstart; rom = u.rom.now; endmem = u.endmem }))
          (kept_in u.kept);
    } };

    ghost invariant = { λ u. KeepsStates
        (record { ramstart = u.ramstart; rom = u.rom.now; endmem = u.endmem }) (kept_in u.kept) };
}

// The memory of contents that give one.
fn memory_kept<'i>(
    alloc: Global,
    rom: &'i [u8],
    ramstart: u32,
    endmem: u32,
    contents: &[u8],
) -> Result<Memory<'i>, AllocError>
    requires ram { ramstart ≤ length rom.now }
    requires extent { length rom.now ≤ endmem }
    requires some { 0 < endmem }
    requires limit { endmem ≤ MAX_SIZE }
    requires is { IsContents (record { ramstart = ramstart; rom = rom.now; endmem = endmem })
        contents.now }
    ensures { IfOk result (λ m. memory_of_contents
        (record { ramstart = ramstart; rom = rom.now; endmem = endmem }) contents.now ≡ Some m) }
{
    match cmem_read(alloc, rom, ramstart, endmem, contents) {
        Ok(memory) => Ok(memory),
        Err(RunsFault::NoMemory) => Err(AllocError),
        Err(RunsFault::BadRuns) => {
            prove!(false);
            Err(AllocError)
        }
    }
}

impl<'i> Undo<'i> {
    /// No state of the image with these bytes up to EXTSTART, RAMSTART and ENDMEM is kept.
    pub fn new(rom: &'i [u8], ramstart: u32, endmem: u32) -> Undo<'i>
        requires ram { ramstart ≤ length rom.now }
        requires extent { length rom.now ≤ endmem }
        requires some { 0 < endmem }
        requires limit { endmem ≤ MAX_SIZE }
        ensures value { result ≡ record {
          origin = record { ramstart = ramstart; rom = rom.now; endmem = endmem };
          states = [];
        } }
    {
        Undo {
            rom,
            ramstart,
            endmem,
            kept: None,
        }
    }

    /// What undo keeps where these are its states, the oldest first. None exactly where one of them
    /// isn't kept so of this image, or where they pass a limit.
    pub fn of_states(
        rom: &'i [u8],
        ramstart: u32,
        endmem: u32,
        states: Vec<KeptState>,
    ) -> Option<Undo<'i>>
        requires ram { ramstart ≤ length rom.now }
        requires extent { length rom.now ≤ endmem }
        requires some { 0 < endmem }
        requires limit { endmem ≤ MAX_SIZE }
        ensures value { result ≡ list.undo_of
            (record { ramstart = ramstart; rom = rom.now; endmem = endmem }) states.items }
    {
        if !are_kept(states.as_slice(), ramstart, endmem) {
            return None;
        }
        if !are_within(states.as_slice()) {
            return None;
        }
        Some(Undo {
            rom,
            ramstart,
            endmem,
            kept: Some(states),
        })
    }

    /// Keeps the state, unless it weighs too much, and drops the oldest until both limits hold.
    pub fn save(&mut self, alloc: Global, state: &Saved<'i>) -> Result<Kept, AllocError>
        requires image { origin_of state.now.memory ≡ self.old.origin }
        requires pages { length state.now.memory.bytes % 256 ≡ 0 }
        requires heap { IsTrue (is_heap state.now.heap_start state.now.heap) }
        ensures value { IfOk result (λ kept. kept ≡ list.answer state.now) }
        ensures ok { OnOk result (self.new ≡ list.saved self.old state.now) }
        ensures err { OnErr result (self.new ≡ self.old) }
    {
        let _rom = state.memory.rom();
        let _size = state.memory.size();
        let contents = cmem_write(alloc, &state.memory)?;
        let kept = KeptState {
            contents: Contents::of(contents),
            stack: state.stack.copy_of(alloc)?,
            heap: state.heap.copy_of(alloc)?,
            heap_start: state.heap_start,
        };
        self.keep(alloc, kept)
    }

    // Keeps a state whose contents are at hand.
    fn keep(&mut self, alloc: Global, state: KeptState) -> Result<Kept, AllocError>
        requires { list.IsKept self.old.origin state }
        ensures value { IfOk result (λ kept. kept ≡ list.answer
            (list.state_of self.old.origin state)) }
        ensures ok { OnOk result (self.new
            ≡ list.saved self.old (list.state_of self.old.origin state)) }
        ensures err { OnErr result (self.new ≡ self.old) }
    {
        let weight = weight_of(
            state.contents.as_slice(),
            state.stack.as_slice(),
            state.heap.as_slice(),
        );
        if weight > u128::from(MAX_WEIGHT) {
            return Ok(Kept::TooLarge);
        }
        add(alloc, &mut self.kept, state)?;
        Ok(Kept::Kept)
    }

    /// Takes the newest state, if one is kept. Where memory is wanting it stays.
    pub fn restore(&mut self, alloc: Global) -> Result<Option<Saved<'i>>, AllocError>
        ensures ok { IfOk result (λ state. state ≡ list.newest self.old.states) }
        ensures rest { OnOk result (self.new ≡ list.without_newest self.old) }
        ensures err { OnErr result (self.new ≡ self.old) }
        ensures heap { IfOk result (λ state.
            IfSome state (λ s. IsTrue (is_heap s.heap_start s.heap))) }
    {
        let memory = match newest(&self.kept) {
            Some(kept) => memory_kept(
                alloc,
                self.rom,
                self.ramstart,
                self.endmem,
                kept.contents.as_slice(),
            )?,
            None => return Ok(None),
        };
        match take_newest(&mut self.kept) {
            Some(kept) => Ok(Some(Saved {
                memory,
                stack: kept.stack,
                heap: kept.heap,
                heap_start: kept.heap_start,
            })),
            None => Ok(None),
        }
    }

    /// Whether a state is kept. The limits hold of the list at all times.
    pub fn has(&self) -> bool
        ensures value { result ≡ list.has_any self.now.states }
        ensures within { list.KeepLimits self.now.states }
    {
        newest(&self.kept).is_some()
    }

    /// The states as they are kept, the oldest first.
    pub fn states(&self) -> &[KeptState]
        ensures value { map list.kept_of self.now.states ≡ result.now }
        ensures are { All (list.IsOfImage self.now.origin) self.now.states }
    {
        states_in(&self.kept)
    }

    /// Whether each state is a saved state of the story whose memory this is, with a stack of at
    /// most so many bytes.
    pub fn are_of(&self, memory: &Memory<'_>, stack_size: u32) -> bool
        requires { stack_size ≤ MAX_STACK }
        ensures only { result ≡ true
            → list.KeepsOf (origin_of memory.now) stack_size self.now }
        ensures found { list.KeepsOf (origin_of memory.now) stack_size self.now
            → result ≡ true }
    {
        is_memory_of(memory, self.rom, self.ramstart, self.endmem)
            && are_held(states_in(&self.kept), self.endmem, stack_size)
    }

    /// Drops the newest state, if one is kept.
    pub fn discard(&mut self)
        ensures ok { self.new ≡ list.without_newest self.old }
    {
        let _ = take_newest(&mut self.kept);
    }
}
