//! The parts of a machine.

ghost use Rattle.std.specs.Prelude.{◌≡◌, IfOk};
ghost use Rattle.snap_machine.specs.Laws.{HasRoms};
ghost use Rattle.snap_machine.specs.Parts as spec;

use crate::undo::undo_fields_of;
use glulx_image::Image;
use quetzal::first_memory;
use snap_fields::{Items, Settings, SnapMachine, SnapRandom, SnapStub, UndoState};
use std::alloc::{AllocError, Global};
use vm_exec::{Machine, Waiting, store_fields};
use vm_undo::cmem_write;

/// What a world's bytes say of its machine.
#[derive(Drop)]
pub struct MachineParts {
    pub machine: SnapMachine,
    pub settings: Settings,
    pub random: SnapRandom,
    /// The undo states, the oldest first.
    pub undo: Items<UndoState>,
}

/// The parts of a machine that waits for a result. The error is want of memory.
pub fn parts_of(alloc: Global, machine: &Machine<'_>) -> Result<MachineParts, AllocError>
    ensures value { IfOk result (λ parts. parts ≡ spec.machine_parts machine.now) }
    // The machine's memories have the file's bytes, as the law asks for.
    ensures kept { IfOk result (λ _. HasRoms machine.now) }
{
    let _rom = machine.memory.rom();
    Ok(MachineParts {
        machine: place_of(alloc, machine)?,
        settings: settings_of(machine),
        random: words_of(machine.random()),
        undo: undo_fields_of(alloc, machine.undo().states())?,
    })
}

// Where it stands.
fn place_of(alloc: Global, machine: &Machine<'_>) -> Result<SnapMachine, AllocError>
    ensures { IfOk result (λ place. place ≡ spec.machine_place machine.now) }
{
    let heap = machine.heap();
    Ok(SnapMachine {
        pc: machine.pc(),
        frame: machine.stack.frame(),
        memory: Items::of(cmem_write(alloc, &machine.memory)?),
        stack: Items::of(machine.stack.copy_bytes(alloc)?),
        heap_start: heap.start(),
        heap: Items::of(Vec::from_slice(alloc, heap.blocks())?),
    })
}

fn settings_of(machine: &Machine<'_>) -> Settings
    ensures { result ≡ spec.settings_of machine.now }
{
    let protection = machine.protection();
    Settings {
        mode: machine.mode(),
        rock: machine.rock(),
        string_table: machine.string_table(),
        protect_start: protection.start,
        protect_length: protection.length,
    }
}

fn words_of(random: vm_exec::Random) -> SnapRandom
    ensures { result ≡ spec.random_words random }
{
    SnapRandom {
        start: random.start,
        stream: random.stream,
        taken: random.taken,
        fresh: random.fresh,
    }
}

/// Where the result goes that the machine waits for: a store's DestType and DestAddr.
pub fn store_of(machine: &Machine<'_>) -> SnapStub
    ensures value { result ≡ spec.store machine.now }
{
    match machine.waiting() {
        Waiting::Store(to) => {
            let (kind, address) = store_fields(to);
            SnapStub { kind, address }
        }
        Waiting::Stub => SnapStub {
            kind: 0,
            address: 0,
        },
    }
}

/// The parts of a machine that is put back, as a story that is over has it. The error is want of
/// memory.
pub fn put_back(alloc: Global, image: &Image<'_>) -> Result<MachineParts, AllocError>
    ensures value { IfOk result (λ parts. parts ≡ spec.put_back image.now) }
{
    let memory = first_memory(alloc, image)?;
    Ok(MachineParts {
        machine: SnapMachine {
            pc: 0,
            frame: 0,
            memory: Items::of(cmem_write(alloc, &memory)?),
            stack: Items::of(Vec::new(alloc)),
            heap_start: 0,
            heap: Items::of(Vec::new(alloc)),
        },
        settings: Settings {
            mode: 0,
            rock: 0,
            string_table: 0,
            protect_start: 0,
            protect_length: 0,
        },
        random: SnapRandom {
            start: 0,
            stream: 0,
            taken: 0,
            fresh: 0,
        },
        undo: Items::of(Vec::new(alloc)),
    })
}
