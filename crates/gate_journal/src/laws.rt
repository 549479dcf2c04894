//! What bytes spell, they spell alone (own).

ghost use Rattle.gate_journal.specs.Laws.{SpellsOneList, IsNeverBoth, HasOnePlace, EndsWithin};
ghost use Rattle.gate_journal.specs.Laws.{FindsRows, HasOneReading, KeptFromThen, StopsInTurn};

use disk_model::Disk;

/// Bytes spell one list of rows at most.
pub fn spells_one_list()
    ensures { SpellsOneList }
{}

/// Bytes that spell rows have no corrupt place.
pub fn spells_or_is_corrupt()
    ensures { IsNeverBoth }
{}

/// Bytes have one corrupt place at most.
pub fn has_one_corrupt_place()
    ensures { HasOnePlace }
{}

/// What an append writes ends at most 4,110 bytes behind the closing gate.
pub fn ends_within()
    ensures { EndsWithin }
{}

/// Of bytes that an opening may meet: they spell the rows, or these and one more that may stand
/// next; and no refusal but one of a disk's fault or of memory explains them.
pub fn opening_finds()
    ensures { FindsRows }
{}

/// Bytes have exactly one reading: rows, a corrupt place, or no header.
pub fn has_one_reading()
    ensures { HasOneReading }
{}

/// Of entries that came in turn, each image that a stop may leave since their start spells the rows
/// of the first of them, and at most one more: that of the next one, or one whose append failed
/// behind the last row.
pub fn stops_in_turn<D: Disk>()
    ensures { StopsInTurn D.Disk }
{}

/// Each image that a stop may leave once an entry was taken down spells its row, where it is one.
pub fn kept_from_then<D: Disk>()
    ensures { KeptFromThen D.Disk }
{}
