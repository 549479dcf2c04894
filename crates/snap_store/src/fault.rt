//! Faults of a store (own).

ghost use Rattle.std.specs.Prelude.{◌≡◌};

/// The disk failed: its count of faults as the call began and as it ended.
#[derive(Clone, Copy, Debug, PartialEq, Eq, thiserror::Error)]
#[error("the disk failed: its faults went from {from} to {to}")]
pub struct DiskFault {
    pub from: u64,
    pub to: u64,
}

/// Why no snapshot was looked for.
#[derive(Clone, Copy, Debug, PartialEq, Eq, thiserror::Error)]
pub enum NewestFault {
    #[error(transparent)]
    DiskFault(DiskFault),
    #[error("memory ran out")]
    NoMemory,
}
