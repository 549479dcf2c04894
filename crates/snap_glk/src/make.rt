//! Making the parts of a Glk state of fields (own).

ghost use Rattle.std.specs.Prelude.{Bool, List, map};
ghost use Rattle.std.specs.List.{list_all};
ghost use Rattle.snap_fields.specs.declared.glk.SnapWindow.{SnapWindow};
ghost use Rattle.snap_glk.specs.Making.{MakesIfFit};

use crate::unfit::Unfit;
use snap_fields::{Items, SnapWindow};
use std::alloc::Global;

/// Fields of which such a part is made, among these windows.
pub(crate) trait Make<Part> {
    /// The part.
    ghost made: { List SnapWindow → Self → Part };

    /// Whether its type takes them.
    ghost fits: { Self → Bool };

    fn make(&self, alloc: Global, windows: &[SnapWindow]) -> Result<Part, Unfit>
        ensures { MakesIfFit (made windows.now) fits self.now result };
}

/// The part of each, in order.
pub(crate) fn make_all<Part: Drop, T: Make<Part>>(
    alloc: Global,
    windows: &[SnapWindow],
    fields: &[T],
) -> Result<Items<Part>, Unfit>
    ensures { MakesIfFit (map (T.made windows.now)) (list_all T.fits) fields.now result }
{
    let mut parts = Vec::new(alloc);
    for field in fields {
        parts.push(field.make(alloc, windows)?)?;
    }
    Ok(Items::of(parts))
}
