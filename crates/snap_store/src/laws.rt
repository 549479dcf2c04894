//! A law of snapshot files.

ghost use Rattle.snap_store.specs.File.{KeepsAreasOfBeforeClosed};

/// A file with 0 at both gates has no open area, and none that may open.
pub fn keeps_areas_of_before_closed()
    ensures { KeepsAreasOfBeforeClosed }
{}
