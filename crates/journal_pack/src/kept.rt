//! The rows that a packed journal keeps (own).

ghost use Rattle.std.specs.Prelude.{◌≡◌, IfOk};
ghost use Rattle.journal_pack.specs.Live.{live_rows};

use crate::later::Later;
use gate_journal::Row;
use std::alloc::{AllocError, Global};

/// The rows, of these, of sessions that are in use behind all of them, each from its session's last
/// OPEN on. The others are dropped, and none is copied.
pub fn live_among(alloc: Global, mut rows: Vec<Row>) -> Result<Vec<Row>, AllocError>
    ensures { IfOk result (λ kept. kept.items ≡ live_rows rows.items) }
{
    let mut kept = Vec::new(alloc);
    let mut later = Later::new();
    while let Some(row) = rows.pop() {
        if later.meet(row.session, &row.command) {
            kept.push(row)?;
        }
    }
    kept.reverse();
    Ok(kept)
}

/// The same of rows that stay: copies of those.
pub fn live(alloc: Global, rows: &[Row]) -> Result<Vec<Row>, AllocError>
    ensures { IfOk result (λ kept. kept.items ≡ live_rows rows.now) }
{
    let mut copies = Vec::new(alloc);
    for at in 0..rows.len() {
        copies.push(rows[at].copy_of(alloc)?)?;
    }
    live_among(alloc, copies)
}
