//! A turn, as steps on the table.
ghost use Rattle.std.specs.Prelude.{◌≡◌, ◌^◌, ◌<◌, [], length};
ghost use Rattle.turn_cell.specs.Views.{IsIdle, HasValue, HasNumberFirst, MayLeave, at_stage};
ghost use Rattle.turn_cell.specs.Steps.{TakesValue};
ghost use Rattle.turn_cell.specs.declared.view.Stage.TheVariants.{Idle};

use crate::steps::{CellSeat, CellTable, Draw, Look, PassOn, Raise};
use crate::told::Told;
use std::sync::Wait;

// A ticket of at least this number is never served, so that no word wraps.
const TICKETS: u64 = 1 << 62;

// Waits until its ticket is served, and takes the value.
pub(crate) fn take_value<T: Told + Drop, R: Wait>(
    rt: &R,
    table: &CellTable<T>,
    place: &mut CellSeat<T>,
) -> T
    requires table { (place.old.table_id ≡ table.now.table_id)
        × (table.now.table_id.words ≡ 3) }
    requires idle { IsIdle place.old.me }
    ensures value { TakesValue T.entries T.by T.tag place.old.me result place.new.me }
    ensures kept { (place.new.table_id ≡ place.old.table_id) × (place.new.id ≡ place.old.id) }
{
    let ticket = table.fetch_add::<Draw>(place, 0, 1);
    for _ in rt.forever() {
        let served = table.load::<Look<T>>(place, 1);
        if served == ticket && ticket < TICKETS {
            return table.exchange(place, 0, None).unwrap();
        }
        table.park(rt, 1, (served % (1 << 32)) as u32);
    }
    unreachable!()
}

// Puts the value back, tells whether the history grew, and passes the turn on. Gives the length of
// the value's list; `count` is what it was when the turn began.
pub(crate) fn put_back<T: Told + Drop>(
    table: &CellTable<T>,
    place: &mut CellSeat<T>,
    value: T,
    count: u64,
) -> u64
    requires table { (place.old.table_id ≡ table.now.table_id) × (table.now.table_id.words ≡ 3)
        × (table.now.table_id.slots ≡ 1) }
    requires inside { HasValue place.old.me × (count ≡ length place.old.me.0.seen)
        × HasNumberFirst place.old.me.0 }
    requires value { MayLeave T.entries T.by T.tag place.old.me.0 value }
    ensures value { (place.new.me ≡ (at_stage place.old.me.0 Idle (T.entries value), []))
        × (result ≡ length (T.entries value)) }
    ensures kept { (place.new.table_id ≡ place.old.table_id) × (place.new.id ≡ place.old.id) }
{
    let now = value.count();
    drop(table.exchange(place, 0, Some(value)));
    if now != count {
        table.fetch_add::<Raise<T>>(place, 2, 1);
    }
    table.fetch_add::<PassOn>(place, 1, 1);
    table.wake_all(1);
    now
}
