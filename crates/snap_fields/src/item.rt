//! What stands in lists (own).

ghost use Rattle.std.specs.Prelude.{◌↔◌, ℕ, List, IsTrue, OnOk, Option};
ghost use Rattle.std.specs.List.{AllByRecursion, flat_map};
ghost use Rattle.snap_fields.specs.Counts.{CountsList};
ghost use Rattle.snap_fields.specs.Numbers.{IsListOf, list_of};
ghost use Rattle.snap_fields.specs.Reading.{ReadsFront, list_at, many_at};
ghost use Rattle.snap_fields.specs.Writing.{PutsBehind};

use crate::cursor::Cursor;
use crate::fault::SnapFault;
use crate::items::Items;
use crate::put::put4;
use std::alloc::{AllocError, Global};

/// A value that stands in a list.
pub trait Item {
    /// How it is read.
    ghost read_as: { List ℕ → Option (Self × List ℕ) };

    /// Its bytes.
    ghost print: { Self → List ℕ };

    /// Which values have bytes.
    ghost is_printable: { Self → Type 0 };

    /// Those whose lists have counts of four bytes.
    ghost has_counts: { Self → Type 0 };

    /// Whether it is one of those.
    fn has_counts(&self) -> bool
        ensures { IsTrue result ↔ has_counts self.now };

    fn read(alloc: Global, from: &mut Cursor<'_>) -> Result<Self, SnapFault>
        ensures { ReadsFront read_as from.old from.new result };

    fn write(&self, out: &mut Vec<u8>) -> Result<(), AllocError>
        requires { has_counts self.now }
        ensures { OnOk result
            (PutsBehind print is_printable self.now out.old.items out.new.items) };
}

/// So many values. Memory is taken for those that are there.
pub fn many<T: Item + Drop>(
    alloc: Global,
    from: &mut Cursor<'_>,
    count: u64,
) -> Result<Items<T>, SnapFault>
    ensures { ReadsFront (many_at T.read_as count) from.old from.new result }
{
    let mut items = Vec::new(alloc);
    for _ in 0..count {
        items.push(T::read(alloc, from)?)?;
    }
    Ok(Items::of(items))
}

/// A count, and that many values.
#[tactic(auto, unfolding(crate::specs::Reading::list_at))]
pub fn list<T: Item + Drop>(alloc: Global, from: &mut Cursor<'_>) -> Result<Items<T>, SnapFault>
    ensures { ReadsFront (list_at T.read_as) from.old from.new result }
{
    let count = from.n4()?;
    many(alloc, from, u64::from(count))
}

/// The values one after the other.
pub fn put_many<T: Item>(out: &mut Vec<u8>, items: &[T]) -> Result<(), AllocError>
    requires { AllByRecursion T.has_counts items.now }
    ensures { OnOk result (PutsBehind (flat_map T.print) (AllByRecursion T.is_printable)
        items.now out.old.items out.new.items) }
{
    for item in items {
        item.write(out)?;
    }
    Ok(())
}

/// Their count, and the values.
pub fn put_list<T: Item>(out: &mut Vec<u8>, items: &[T]) -> Result<(), AllocError>
    requires { CountsList T.has_counts items.now }
    ensures { OnOk result (PutsBehind (list_of T.print) (IsListOf T.is_printable)
        items.now out.old.items out.new.items) }
{
    put4(out, items.len() as u32)?;
    put_many(out, items)
}
