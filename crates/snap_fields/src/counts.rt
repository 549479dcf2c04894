//! Counts of four bytes (own).

ghost use Rattle.std.specs.Prelude.{◌↔◌, IsTrue};
ghost use Rattle.std.specs.List.{AllByRecursion};
ghost use Rattle.snap_fields.specs.Counts.{CountsList, CountsMachine, CountsRequest, CountsTarget};
ghost use Rattle.snap_fields.specs.Counts.{HasCells, HasCounts};
ghost use Rattle.snap_fields.specs.Numbers.{IsCounted};

use crate::fields::{Fields, SnapMachine};
use crate::glk::{SnapArea, SnapContent, SnapRequest, SnapTarget};
use crate::item::Item;

/// Whether four bytes can count them.
pub fn is_counted<T>(items: &[T]) -> bool
    ensures { IsTrue result ↔ IsCounted items.now }
{
    items.len() <= u32::MAX as usize
}

/// Whether the counts of all of them have four bytes.
fn have_counts<T: Item>(items: &[T]) -> bool
    ensures { IsTrue result ↔ AllByRecursion T.has_counts items.now }
{
    for item in items {
        if !item.has_counts() {
            return false;
        }
    }
    true
}

/// The same of a list and all that stands in it.
fn list_has_counts<T: Item>(items: &[T]) -> bool
    ensures { IsTrue result ↔ CountsList T.has_counts items.now }
{
    is_counted(items) && have_counts(items)
}

fn machine_has_counts(machine: &SnapMachine) -> bool
    ensures { IsTrue result ↔ CountsMachine machine.now }
{
    is_counted(machine.memory.as_slice())
        && is_counted(machine.stack.as_slice())
        && is_counted(machine.heap.as_slice())
}

/// Whether a grid has a cell for each place of its rectangle.
pub fn has_cells(area: SnapArea, content: &SnapContent) -> bool
    ensures { IsTrue result ↔ HasCells area content.now }
{
    match content {
        SnapContent::Grid { cells, .. } => {
            cells.as_slice().len() as u64 == u64::from(area.w) * u64::from(area.h)
        }
        SnapContent::Pair { .. } | SnapContent::Blank | SnapContent::Buffer => true,
    }
}

pub fn request_has_counts(request: &SnapRequest) -> bool
    ensures { IsTrue result ↔ CountsRequest request.now }
{
    match request {
        SnapRequest::Line { terminators, .. } => is_counted(terminators.as_slice()),
        SnapRequest::Nothing | SnapRequest::Char { .. } => true,
    }
}

pub fn target_has_counts(target: &SnapTarget) -> bool
    ensures { IsTrue result ↔ CountsTarget target.now }
{
    match target {
        SnapTarget::File { name, .. } => is_counted(name.as_slice()),
        SnapTarget::Window | SnapTarget::Memory { .. } => true,
    }
}

/// Whether each list's count has four bytes, and each grid a cell for each place.
pub fn has_counts(fields: &Fields) -> bool
    ensures { IsTrue result ↔ HasCounts fields.now }
{
    machine_has_counts(&fields.machine)
        && list_has_counts(fields.undo.as_slice())
        && list_has_counts(fields.windows.as_slice())
        && list_has_counts(fields.streams.as_slice())
        && list_has_counts(fields.filerefs.as_slice())
        && list_has_counts(fields.files.as_slice())
        && is_counted(fields.show.as_slice())
}
