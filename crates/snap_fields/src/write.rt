//! Writing a world's bytes (own).

ghost use Rattle.std.specs.Prelude.{IfNone, IfOk, IfSome, OnOk};
ghost use Rattle.snap_fields.specs.Counts.{HasCounts};
ghost use Rattle.snap_fields.specs.Laws.{SpellsFields};
ghost use Rattle.snap_fields.specs.Printable.{IsPrintable};
ghost use Rattle.snap_fields.specs.Printing.{print_fields};
ghost use Rattle.snap_fields.specs.Writing.{PutsBehind};

use crate::counts::has_counts;
use crate::fields::Fields;
use crate::item::put_list;
use crate::put::{put_bytes, put4};
use crate::read::SIGNATURE;
use crate::writing::{put_machine, put_numbers, put_random, put_settings, put_setup, put_waiting};
use std::alloc::{AllocError, Global};

fn put_fields(out: &mut Vec<u8>, fields: &Fields) -> Result<(), AllocError>
    requires { HasCounts fields.now }
    ensures { OnOk result
        (PutsBehind print_fields IsPrintable fields.now out.old.items out.new.items) }
{
    put4(out, SIGNATURE)?;
    put_setup(out, fields.setup)?;
    put_machine(out, &fields.machine)?;
    put_settings(out, fields.settings)?;
    put_random(out, fields.random)?;
    put_list(out, fields.undo.as_slice())?;
    put_waiting(out, fields.waiting)?;
    put_numbers(out, fields.numbers)?;
    put_list(out, fields.windows.as_slice())?;
    put_list(out, fields.streams.as_slice())?;
    put_list(out, fields.filerefs.as_slice())?;
    put_list(out, fields.files.as_slice())?;
    put_bytes(out, fields.show.as_slice())?;
    Ok(())
}

/// The bytes of the fields. None exactly where they have none, since a list is too long for its
/// count or a grid hasn't its cells. An error is want of memory.
pub fn write_fields(alloc: Global, fields: &Fields) -> Result<Option<Vec<u8>>, AllocError>
    ensures value { IfOk result (λ bytes. IfSome bytes (λ v. SpellsFields v.items fields.now)) }
    ensures none { IfOk result (λ bytes. IfNone bytes (¬ IsPrintable fields.now)) }
{
    if !has_counts(fields) {
        return Ok(None);
    }
    let mut out = Vec::new(alloc);
    put_fields(&mut out, fields)?;
    Ok(Some(out))
}
