//! When a snapshot falls due (own).

ghost use Rattle.std.specs.Prelude.{◌≡◌};
ghost use Rattle.session_saves.specs.Saves.{falls_due, is_at};

use crate::saves::Point;

/// A snapshot falls due after so many inputs, again and again.
const INTERVAL: u32 = 16;

/// It does after this many: a positive multiple of 16.
pub fn falls_due(count: u32) -> bool
    ensures value { result ≡ falls_due count }
{
    count > 0 && count % INTERVAL == 0
}

/// The snapshot that was missed last is this one.
pub fn is_at(last: &Option<Point>, place: u64, count: u32) -> bool
    ensures { result ≡ is_at place count last.now }
{
    match last {
        None => false,
        Some(point) => point.place == place && point.count == count,
    }
}
