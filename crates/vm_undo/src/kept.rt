//! States as undo keeps them, and the limits of their list.

ghost use Rattle.std.specs.Prelude.{◌≡◌, ◌≤◌, ◌<◌, ◌++◌, ◌∷◌, ◌*◌, ◌+◌, ◌^◌, [], List, ℕ, length};
ghost use Rattle.std.specs.Prelude.{All, None, OnErr, OnOk, MatchOption, Some, true};
ghost use Rattle.vm_undo.specs.UndoList.{IsHeld, IsKept, are_within, before_newest, is_kept};
ghost use Rattle.vm_undo.specs.UndoList.{kept_weight, newest};
ghost use Rattle.std.specs.List.{list_all};
ghost use Rattle.vm_undo.specs.UndoList.{within_limits};
ghost use Rattle.vm_undo.specs.KeptList.{kept_in};

use crate::contents::is_contents;
use crate::fits::is_heap_over;
use crate::lists::{Blocks, StackBytes};
use crate::saved::is_stack;
use crate::undo::{MAX_STATES, MAX_WEIGHT};
use byteorder::{BigEndian, ByteOrder};
use std::alloc::{AllocError, Global};
use std::marker::Model;
use vm_heap::{Block, is_heap};
use vm_stack::MAX_STACK;

/// The contents of a CMem chunk, seen by contracts as the list of their bytes.
#[derive(Drop)]
pub struct Contents {
    list: Vec<u8>,
}

impl Model for Contents {
    ghost use Rattle.std.specs.Prelude.{List, ℕ};

    ghost Value = { List ℕ };

    ghost view = { λ b. b.list.items };
}

impl Contents {
    /// The bytes of the vector.
    pub fn of(list: Vec<u8>) -> Contents
        ensures value { result ≡ list.items }
    {
        Contents { list }
    }

    /// The bytes, lent.
    pub fn as_slice(&self) -> &[u8]
        ensures value { result.now ≡ self.now }
    {
        self.list.as_slice()
    }
}

/// A state as undo keeps it: the contents of its memory, the bytes of the stack with a call stub on
/// top, the blocks of the heap, and where the heap starts.
#[derive(Drop)]
pub struct KeptState {
    pub contents: Contents,
    pub stack: StackBytes,
    pub heap: Blocks,
    pub heap_start: u32,
}

/// What a state of these parts weighs.
pub(crate) fn weight_of(contents: &[u8], stack: &[u8], heap: &[Block]) -> u128
    ensures value { result ≡ length contents.now + length stack.now + 8 * length heap.now }
    ensures within { result ≤ 2 ^ 68 }
{
    contents.len() as u128 + stack.len() as u128 + 8 * heap.len() as u128
}

/// Whether both limits hold.
#[tactic(auto, using(crate::proofs::LimitLemmas::light_all))]
pub(crate) fn are_within(states: &[KeptState]) -> bool
    ensures { result ≡ are_within kept_weight states.now }
{
    if states.len() > MAX_STATES as usize {
        return false;
    }
    let mut weight = 0;
    for state in states {
        weight += weight_of(
            state.contents.as_slice(),
            state.stack.as_slice(),
            state.heap.as_slice(),
        );
    }
    weight <= u128::from(MAX_WEIGHT)
}

/// Drops the oldest until both limits hold.
#[tactic(auto, using(crate::proofs::LimitLemmas::some_over, crate::proofs::LimitLemmas::shed_one, crate::proofs::LimitLemmas::shed_none))]
pub(crate) fn shed(states: &mut Vec<KeptState>)
    ensures { states.new.items ≡ within_limits kept_weight states.old.items }
{
    while !are_within(states) {
        let _ = states.remove(0);
    }
}

/// Adds a state, and drops the oldest until both limits hold.
pub(crate) fn add(
    alloc: Global,
    slot: &mut Option<Vec<KeptState>>,
    state: KeptState,
) -> Result<(), AllocError>
    ensures ok { OnOk result (kept_in slot.new
        ≡ within_limits kept_weight (kept_in slot.old ++ state ∷ [])) }
    ensures err { OnErr result (kept_in slot.new ≡ kept_in slot.old) }
{
    let mut states = match slot.take() {
        Some(states) => states,
        None => Vec::new(alloc),
    };
    let room = states.reserve(1);
    if room.is_ok() {
        states.push_reserved(state);
        shed(&mut states);
    }
    *slot = Some(states);
    room
}

/// The states, lent.
pub(crate) fn states_in(slot: &Option<Vec<KeptState>>) -> &[KeptState]
    ensures { result.now ≡ kept_in slot.now }
{
    match slot {
        Some(states) => states.as_slice(),
        None => &[],
    }
}

/// The newest state, lent.
pub(crate) fn newest(slot: &Option<Vec<KeptState>>) -> Option<&KeptState>
    ensures { MatchOption result (newest (kept_in slot.now) ≡ None)
        (λ k. newest (kept_in slot.now) ≡ Some k.now) }
{
    states_in(slot).last()
}

/// Takes the newest state.
pub(crate) fn take_newest(slot: &mut Option<Vec<KeptState>>) -> Option<KeptState>
    ensures value { result ≡ newest (kept_in slot.old) }
    ensures rest { kept_in slot.new ≡ before_newest (kept_in slot.old) }
{
    match slot {
        Some(states) => states.pop(),
        None => None,
    }
}

// Whether a state's stack is a saved one of at most so many bytes, and its heap one over its memory.
fn is_held(state: &KeptState, endmem: u32, stack_size: u32) -> bool
    requires { stack_size ≤ MAX_STACK }
    ensures only { result ≡ true → IsHeld endmem stack_size state.now }
    ensures found { IsHeld endmem stack_size state.now → result ≡ true }
{
    let contents = state.contents.as_slice();
    if contents.len() < 4 {
        return false;
    }
    let size = BigEndian::read_u32(contents);
    is_stack(state.stack.as_slice(), stack_size)
        && is_heap_over(endmem, size, state.heap_start, state.heap.as_slice())
}

/// The same of each state.
pub(crate) fn are_held(states: &[KeptState], endmem: u32, stack_size: u32) -> bool
    requires { stack_size ≤ MAX_STACK }
    ensures only { result ≡ true → All (IsHeld endmem stack_size) states.now }
    ensures found { All (IsHeld endmem stack_size) states.now → result ≡ true }
{
    for state in states {
        if !is_held(state, endmem, stack_size) {
            return false;
        }
    }
    true
}

// Whether a state is kept so of an image with this RAMSTART and ENDMEM.
fn is_kept(state: &KeptState, ramstart: u32, endmem: u32) -> bool
    ensures value { result ≡ is_kept ramstart endmem state.now }
    ensures only { result ≡ true → (rom : List ℕ) → ramstart ≤ length rom → length rom ≤ endmem
        → IsKept (record { ramstart = ramstart; rom = rom; endmem = endmem }) state.now }
{
    is_contents(ramstart, endmem, state.contents.as_slice())
        && is_heap(state.heap_start, state.heap.as_slice())
}

/// The same of each state.
pub(crate) fn are_kept(states: &[KeptState], ramstart: u32, endmem: u32) -> bool
    ensures value { result ≡ list_all (is_kept ramstart endmem) states.now }
    ensures only { result ≡ true → (rom : List ℕ) → ramstart ≤ length rom → length rom ≤ endmem
        → All (IsKept (record { ramstart = ramstart; rom = rom; endmem = endmem })) states.now }
{
    for state in states {
        if !is_kept(state, ramstart, endmem) {
            return false;
        }
    }
    true
}
