//! Blocks of memory that are cleared or copied.

ghost use Rattle.std.specs.Prelude.{◌≡◌, OnErr};
ghost use Rattle.vm_memory.specs.Access.{zeroed, copied, LeavesMemory};

use vm_memory::{MemStop, Memory};

/// Makes so many bytes at the address zero; a count of 0 does nothing
/// (Glulx 3.1.3, "Block Copy and Clear").
pub fn zero(memory: &mut Memory<'_>, count: u32, at: u32) -> Result<(), MemStop>
    ensures value { LeavesMemory (zeroed memory.old at count) memory.new result }
    ensures err { OnErr result (memory.new ≡ memory.old) }
{
    memory.zero(at, count)
}

/// Copies so many bytes from one address to another, as they were before though the two blocks
/// overlap; a count of 0 does nothing (Glulx 3.1.3, "Block Copy and Clear").
pub fn copy(memory: &mut Memory<'_>, count: u32, from: u32, to: u32) -> Result<(), MemStop>
    ensures value { LeavesMemory (copied memory.old count from to) memory.new result }
    ensures err { OnErr result (memory.new ≡ memory.old) }
{
    memory.copy(from, to, count)
}
