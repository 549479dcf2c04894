//! Telling the parts of a Glk state as fields (own).

ghost use Rattle.std.specs.Prelude.{◌≡◌, Bool, IfOk, map, true};
ghost use Rattle.std.specs.List.{list_all};

use snap_fields::Items;
use std::alloc::{AllocError, Global};

/// A part of a Glk state that has such fields.
pub(crate) trait Tell<Fields> {
    /// Its fields.
    ghost told: { Self → Fields };

    /// What its type keeps of these.
    ghost is_kept: { Fields → Bool };

    fn tell(&self, alloc: Global) -> Result<Fields, AllocError>
        ensures { IfOk result (λ f. (f ≡ told self.now) × (is_kept f ≡ true)) };
}

/// The fields of each, in order.
pub(crate) fn tell_all<Fields: Drop, T: Tell<Fields>>(
    alloc: Global,
    parts: &[T],
) -> Result<Items<Fields>, AllocError>
    ensures { IfOk result (λ fs.
        (fs ≡ map T.told parts.now) × (list_all T.is_kept fs ≡ true)) }
{
    let mut fields = Vec::new(alloc);
    for part in parts {
        fields.push(part.tell(alloc)?)?;
    }
    Ok(Items::of(fields))
}
