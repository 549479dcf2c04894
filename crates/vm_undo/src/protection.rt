//! The protected range of memory.

ghost use Rattle.std.specs.Prelude.{◌≡◌, Ok, OnErr};
ghost use Rattle.vm_memory.specs.Access.{LeavesMemory};
ghost use Rattle.vm_memory.specs.MemoryMap.{KeepsMap};
ghost use Rattle.vm_undo.specs.Protection.{protected};

use vm_memory::{MemStop, Memory};

/// Writes what `kept` holds in the range of so many bytes into the other memory, where it lies in
/// RAM of both (Glulx 3.1.3, "Game State"). No stop is a fault.
pub fn protect(
    kept: &Memory<'_>,
    into: &mut Memory<'_>,
    start: u32,
    length: u32,
) -> Result<(), MemStop>
    ensures value { LeavesMemory (Ok (protected kept.now into.old start length)) into.new result }
    ensures err { OnErr result (into.new ≡ into.old) }
    ensures kept { KeepsMap into.old into.new }
{
    let from = start.max(kept.ramstart()).max(into.ramstart());
    let end = u64::from(start) + u64::from(length);
    let to = u64::from(kept.size().min(into.size())).min(end) as u32;
    if from < to {
        into.copy_from(kept, from, to - from)?;
    }
    Ok(())
}
