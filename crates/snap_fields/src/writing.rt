//! Writing the items in their order (own).

ghost use Rattle.std.specs.Prelude.{OnOk};
ghost use Rattle.snap_fields.specs.Counts.{CountsMachine};
ghost use Rattle.snap_fields.specs.Printable.{IsMachine, IsNumbers, IsRandom, IsSettings, IsSetup};
ghost use Rattle.snap_fields.specs.Printable.{IsStoreFields, IsWaitingFields};
ghost use Rattle.snap_fields.specs.Printing.{print_machine, print_numbers, print_random};
ghost use Rattle.snap_fields.specs.Printing.{print_settings, print_setup, print_store};
ghost use Rattle.snap_fields.specs.Printing.{print_waiting};
ghost use Rattle.snap_fields.specs.Writing.{PutsBehind};

use crate::fields::{Numbers, Settings, SnapMachine, SnapRandom, SnapSetup, SnapStub, SnapWaiting};
use crate::item::put_list;
use crate::put::{put_bytes, put1, put4, put8};
use std::alloc::AllocError;

pub fn put_setup(out: &mut Vec<u8>, setup: SnapSetup) -> Result<(), AllocError>
    ensures { OnOk result (PutsBehind print_setup IsSetup setup out.old.items out.new.items) }
{
    put8(out, setup.seed)?;
    put1(out, setup.cols)?;
    put1(out, setup.rows)?;
    put8(out, setup.budget)?;
    Ok(())
}

pub fn put_machine(out: &mut Vec<u8>, machine: &SnapMachine) -> Result<(), AllocError>
    requires { CountsMachine machine.now }
    ensures { OnOk result
        (PutsBehind print_machine IsMachine machine.now out.old.items out.new.items) }
{
    put4(out, machine.pc)?;
    put4(out, machine.frame)?;
    put_bytes(out, machine.memory.as_slice())?;
    put_bytes(out, machine.stack.as_slice())?;
    put4(out, machine.heap_start)?;
    put_list(out, machine.heap.as_slice())?;
    Ok(())
}

pub fn put_settings(out: &mut Vec<u8>, settings: Settings) -> Result<(), AllocError>
    ensures { OnOk result
        (PutsBehind print_settings IsSettings settings out.old.items out.new.items) }
{
    put4(out, settings.mode)?;
    put4(out, settings.rock)?;
    put4(out, settings.string_table)?;
    put4(out, settings.protect_start)?;
    put4(out, settings.protect_length)?;
    Ok(())
}

pub fn put_random(out: &mut Vec<u8>, random: SnapRandom) -> Result<(), AllocError>
    ensures { OnOk result (PutsBehind print_random IsRandom random out.old.items out.new.items) }
{
    put8(out, random.start)?;
    put8(out, random.stream)?;
    put8(out, random.taken)?;
    put8(out, random.fresh)
}

fn put_store(out: &mut Vec<u8>, store: SnapStub) -> Result<(), AllocError>
    ensures { OnOk result (PutsBehind print_store IsStoreFields store out.old.items out.new.items) }
{
    put4(out, store.kind)?;
    put4(out, store.address)
}

pub fn put_waiting(out: &mut Vec<u8>, waiting: SnapWaiting) -> Result<(), AllocError>
    ensures { OnOk result
        (PutsBehind print_waiting IsWaitingFields waiting out.old.items out.new.items) }
{
    match waiting {
        SnapWaiting::Quit => put1(out, 0),
        SnapWaiting::Fault(code) => {
            put1(out, 1)?;
            put1(out, code)
        }
        SnapWaiting::Select { reference, store } => {
            put1(out, 2)?;
            put4(out, reference)?;
            put_store(out, store)
        }
        SnapWaiting::Prompt {
            usage,
            mode,
            rock,
            store,
        } => {
            put1(out, 3)?;
            put4(out, usage)?;
            put4(out, mode)?;
            put4(out, rock)?;
            put_store(out, store)?;
            Ok(())
        }
    }
}

pub fn put_numbers(out: &mut Vec<u8>, numbers: Numbers) -> Result<(), AllocError>
    ensures { OnOk result (PutsBehind print_numbers IsNumbers numbers out.old.items out.new.items) }
{
    put4(out, numbers.window)?;
    put4(out, numbers.stream)?;
    put4(out, numbers.fileref)?;
    put4(out, numbers.root)?;
    put4(out, numbers.current)?;
    Ok(())
}
