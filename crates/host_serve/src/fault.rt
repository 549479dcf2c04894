//! Why a host isn't opened (own).

use gate_journal::JournalFault;
use snap_store::DiskFault;

/// Why a host isn't opened.
#[derive(Debug, Drop)]
pub enum OpenFault<D> {
    /// The journal is refused, and its disk is handed back.
    Journal(JournalFault, D),
    /// The disk of this session's snapshots failed, and is handed back.
    Snap {
        session: u8,
        fault: DiskFault,
        disk: D,
    },
    /// Memory ran out once the journal was opened.
    NoMemory,
}
