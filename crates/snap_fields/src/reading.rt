//! Reading the items in their order (own).

ghost use Rattle.snap_fields.specs.Reading.{ReadsFront};
ghost use Rattle.snap_fields.specs.Items.{block_at, machine_at, numbers_at, random_at, settings_at};
ghost use Rattle.snap_fields.specs.Items.{setup_at, store_at, waiting_at};

use crate::cursor::Cursor;
use crate::fault::SnapFault;
use crate::fields::{Numbers, Settings, SnapMachine, SnapRandom, SnapSetup, SnapStub, SnapWaiting};
use crate::item::list;
use std::alloc::Global;

#[tactic(auto, unfolding(crate::specs::Items::setup_at))]
pub fn setup(from: &mut Cursor<'_>) -> Result<SnapSetup, SnapFault>
    ensures { ReadsFront setup_at from.old from.new result }
{
    Ok(SnapSetup {
        seed: from.n8()?,
        cols: from.n1()?,
        rows: from.n1()?,
        budget: from.n8()?,
    })
}

#[tactic(auto, unfolding(crate::specs::Items::machine_at))]
pub fn machine(alloc: Global, from: &mut Cursor<'_>) -> Result<SnapMachine, SnapFault>
    ensures { ReadsFront machine_at from.old from.new result }
{
    Ok(SnapMachine {
        pc: from.n4()?,
        frame: from.n4()?,
        memory: from.bytes(alloc)?,
        stack: from.bytes(alloc)?,
        heap_start: from.n4()?,
        heap: list(alloc, from)?,
    })
}

#[tactic(auto, unfolding(crate::specs::Items::settings_at))]
pub fn settings(from: &mut Cursor<'_>) -> Result<Settings, SnapFault>
    ensures { ReadsFront settings_at from.old from.new result }
{
    Ok(Settings {
        mode: from.n4()?,
        rock: from.n4()?,
        string_table: from.n4()?,
        protect_start: from.n4()?,
        protect_length: from.n4()?,
    })
}

#[tactic(auto, unfolding(crate::specs::Items::random_at))]
pub fn random(from: &mut Cursor<'_>) -> Result<SnapRandom, SnapFault>
    ensures { ReadsFront random_at from.old from.new result }
{
    Ok(SnapRandom {
        start: from.n8()?,
        stream: from.n8()?,
        taken: from.n8()?,
        fresh: from.n8()?,
    })
}

#[tactic(auto, unfolding(crate::specs::Items::store_at))]
fn store(from: &mut Cursor<'_>) -> Result<SnapStub, SnapFault>
    ensures { ReadsFront store_at from.old from.new result }
{
    Ok(SnapStub {
        kind: from.n4()?,
        address: from.n4()?,
    })
}

#[tactic(auto, unfolding(crate::specs::Items::waiting_at))]
pub fn waiting(from: &mut Cursor<'_>) -> Result<SnapWaiting, SnapFault>
    ensures { ReadsFront waiting_at from.old from.new result }
{
    match from.n1()? {
        0 => Ok(SnapWaiting::Quit),
        1 => Ok(SnapWaiting::Fault(from.n1()?)),
        2 => Ok(SnapWaiting::Select {
            reference: from.n4()?,
            store: store(from)?,
        }),
        3 => Ok(SnapWaiting::Prompt {
            usage: from.n4()?,
            mode: from.n4()?,
            rock: from.n4()?,
            store: store(from)?,
        }),
        _ => Err(SnapFault::BadSnap),
    }
}

#[tactic(auto, unfolding(crate::specs::Items::numbers_at))]
pub fn numbers(from: &mut Cursor<'_>) -> Result<Numbers, SnapFault>
    ensures { ReadsFront numbers_at from.old from.new result }
{
    Ok(Numbers {
        window: from.n4()?,
        stream: from.n4()?,
        fileref: from.n4()?,
        root: from.n4()?,
        current: from.n4()?,
    })
}
