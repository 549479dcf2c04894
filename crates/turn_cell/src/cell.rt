//! A cell is a table of three words and one slot.
use crate::steps::CellRule;
use crate::told::Told;
use crate::view::View;
use atomic_table::Table;
use std::alloc::Global;
use std::snapshot::Snapshot;

mod calls;

ghost use Rattle.std.specs.Prelude.{◌≡◌};

/// A value that the holders of passes have in turn, one at a time.
#[derive(Drop)]
pub struct Cell<T: Told> {
    table: Table<Option<T>, View<T::Entry, T>, Snapshot<T>, CellRule<T>, Global>,
    ghost sized: { (table.shared.table_id.words ≡ 3) × (table.shared.table_id.slots ≡ 1) },
}
