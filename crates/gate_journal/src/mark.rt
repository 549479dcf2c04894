//! Where the rows of a journal stand among its faults (own).

use crate::row::Row;
use std::snapshot::Snapshot;

/// A row, the next one in their list, or a fault in the append of this row, which only clauses read.
#[derive(Drop)]
pub enum Mark {
    Row,
    Fault {
        asked: Snapshot<Row>,
        from: u64,
        to: u64,
    },
}
