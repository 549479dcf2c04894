//! Reading all of a world's bytes (own).

ghost use Rattle.std.specs.Prelude.{IfErr, IfOk};
ghost use Rattle.snap_fields.specs.Laws.{RefusesFields, SpellsFields};
ghost use Rattle.snap_fields.specs.Reading.{ReadsFront, ReadsParts};
ghost use Rattle.snap_fields.specs.Whole.{FindsWhole, fields_at, if_all_read, object_parts};
ghost use Rattle.snap_fields.specs.Whole.{objects_at, after_machine_at, after_machine_parts};

use crate::cursor::Cursor;
use crate::fault::SnapFault;
use crate::fields::{Fields, Numbers, Settings, SnapRandom, SnapWaiting, UndoState};
use crate::glk::{SnapFile, SnapFileRef, SnapStream, SnapWindow};
use crate::item::list;
use crate::items::Items;
use crate::reading::{machine, numbers, random, settings, setup, waiting};
use std::alloc::Global;

/// `STW2`.
pub(crate) const SIGNATURE: u32 = 0x5354_5732;

/// The objects of Glk, and what was shown last.
#[derive(Drop)]
struct Objects {
    windows: Items<SnapWindow>,
    streams: Items<SnapStream>,
    filerefs: Items<SnapFileRef>,
    files: Items<SnapFile>,
    show: Items<u8>,
}

/// What stands behind the machine.
#[derive(Drop)]
struct AfterMachine {
    settings: Settings,
    random: SnapRandom,
    undo: Items<UndoState>,
    waiting: SnapWaiting,
    numbers: Numbers,
    objects: Objects,
}

/// Reads the objects in their order.
#[tactic(auto, unfolding(crate::specs::Whole::objects_at))]
fn read_objects(alloc: Global, from: &mut Cursor<'_>) -> Result<Objects, SnapFault>
    ensures { ReadsParts object_parts objects_at from.old from.new result }
{
    Ok(Objects {
        windows: list(alloc, from)?,
        streams: list(alloc, from)?,
        filerefs: list(alloc, from)?,
        files: list(alloc, from)?,
        show: from.bytes(alloc)?,
    })
}

/// Reads what stands behind the machine.
#[tactic(auto, unfolding(crate::specs::Whole::after_machine_at))]
fn read_after_machine(alloc: Global, from: &mut Cursor<'_>) -> Result<AfterMachine, SnapFault>
    ensures { ReadsParts after_machine_parts after_machine_at from.old from.new result }
{
    Ok(AfterMachine {
        settings: settings(from)?,
        random: random(from)?,
        undo: list(alloc, from)?,
        waiting: waiting(from)?,
        numbers: numbers(from)?,
        objects: read_objects(alloc, from)?,
    })
}

#[tactic(auto, unfolding(crate::specs::Whole::fields_at))]
fn fields(alloc: Global, from: &mut Cursor<'_>) -> Result<Fields, SnapFault>
    ensures { ReadsFront fields_at from.old from.new result }
{
    if from.n4()? != SIGNATURE {
        return Err(SnapFault::BadSnap);
    }
    let setup = setup(from)?;
    let machine = machine(alloc, from)?;
    let after = read_after_machine(alloc, from)?;
    Ok(Fields {
        setup,
        machine,
        settings: after.settings,
        random: after.random,
        undo: after.undo,
        waiting: after.waiting,
        numbers: after.numbers,
        windows: after.objects.windows,
        streams: after.objects.streams,
        filerefs: after.objects.filerefs,
        files: after.objects.files,
        show: after.objects.show,
    })
}

fn all(alloc: Global, bytes: &[u8]) -> Result<Fields, SnapFault>
    ensures { FindsWhole (if_all_read (fields_at bytes.now)) result }
{
    let mut from = Cursor::of(bytes);
    let fields = fields(alloc, &mut from)?;
    if !from.rest().is_empty() {
        return Err(SnapFault::BadSnap);
    }
    Ok(fields)
}

/// The fields that the bytes spell, all of the bytes. Memory is taken for what is there, and
/// never by a count alone.
pub fn read_fields(alloc: Global, bytes: &[u8]) -> Result<Fields, SnapFault>
    // What is read is spelled so, each byte of it.
    ensures found { IfOk result (SpellsFields bytes.now) }
    // `BadSnap` exactly where no fields have these bytes.
    ensures exact { IfErr result (RefusesFields bytes.now) }
{
    all(alloc, bytes)
}
