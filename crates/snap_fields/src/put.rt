//! Writing numbers and bytes (own).

ghost use Rattle.std.specs.Prelude.{OnOk};
ghost use Rattle.snap_fields.specs.Numbers.{IsByte, IsCounted, IsFlag, IsListOf, IsLong, IsWord};
ghost use Rattle.snap_fields.specs.Numbers.{bytes_with_count, flag1, flag4, n1, n4, n8};
ghost use Rattle.snap_fields.specs.Writing.{PutsBehind};

use std::alloc::AllocError;

pub fn put1(out: &mut Vec<u8>, number: u8) -> Result<(), AllocError>
    ensures { OnOk result (PutsBehind n1 IsByte number out.old.items out.new.items) }
{
    out.push(number)?;
    Ok(())
}

pub fn put4(out: &mut Vec<u8>, number: u32) -> Result<(), AllocError>
    ensures { OnOk result (PutsBehind n4 IsWord number out.old.items out.new.items) }
{
    out.extend_from_slice(&number.to_be_bytes())
}

pub fn put8(out: &mut Vec<u8>, number: u64) -> Result<(), AllocError>
    ensures { OnOk result (PutsBehind n8 IsLong number out.old.items out.new.items) }
{
    out.extend_from_slice(&number.to_be_bytes())
}

/// 0 or 1 in one byte.
pub fn put_flag1(out: &mut Vec<u8>, flag: bool) -> Result<(), AllocError>
    ensures { OnOk result (PutsBehind flag1 IsFlag flag out.old.items out.new.items) }
{
    out.push(u8::from(flag))?;
    Ok(())
}

/// 0 or 1 in four bytes.
pub fn put_flag4(out: &mut Vec<u8>, flag: bool) -> Result<(), AllocError>
    ensures { OnOk result (PutsBehind flag4 IsFlag flag out.old.items out.new.items) }
{
    put4(out, u32::from(flag))
}

/// A count, and the bytes.
pub fn put_bytes(out: &mut Vec<u8>, bytes: &[u8]) -> Result<(), AllocError>
    requires { IsCounted bytes.now }
    ensures { OnOk result
        (PutsBehind bytes_with_count (IsListOf IsByte) bytes.now out.old.items out.new.items) }
{
    put4(out, bytes.len() as u32)?;
    out.extend_from_slice(bytes)
}
