//! The disks of a folder, and their names.
ghost use Rattle.std.specs.Prelude.{◌≡◌, IfOk, map, string_bytes};
ghost use Rattle.host_top.specs.Borrowed.{journal_in, names_of, snap_in};

use std::alloc::{AllocError, Global};

/// How many sessions a folder has.
pub const SESSIONS: u8 = 64;

/// The names of a folder's disks, the journal's first, then one for each session. No two of them are
/// the same.
#[derive(Drop)]
pub struct Names<'f> {
    pub folder: &'f str,
    pub all: Vec<String>,
    ghost named: { map string_bytes all.items ≡ names_of folder.now },
}

/// The disks of a folder, those of the stores in the order of the sessions.
#[derive(Drop)]
pub struct Disks<D> {
    pub journal: D,
    pub snaps: Vec<D>,
}

/// What comes back of the disks of a folder.
#[derive(Drop)]
pub enum Back<D> {
    /// The journal's, and those of all stores.
    All(D, Vec<D>),
    /// The journal's alone, which is refused.
    Journal(D),
    /// That of this session's store alone, which failed.
    Snap(u8, D),
    /// None of them.
    Nothing,
}

/// The name of the journal of a folder.
pub fn journal_name(alloc: Global, folder: &str) -> Result<String, AllocError>
    ensures { IfOk result (λ name. string_bytes name ≡ journal_in folder.now) }
{
    format!(in alloc; "{folder}/journal")
}

/// The name of a session's store.
pub fn snap_name(alloc: Global, folder: &str, session: u8) -> Result<String, AllocError>
    ensures { IfOk result (λ name. string_bytes name ≡ snap_in folder.now session) }
{
    let tens = session / 10;
    let units = session % 10;
    format!(in alloc; "{folder}/snap{tens}{units}")
}

/// The names of a folder's disks.
pub fn names_in<'f>(alloc: Global, folder: &'f str) -> Result<Names<'f>, AllocError>
    ensures { IfOk result (λ names. names.folder.now ≡ folder.now) }
{
    let mut all = Vec::new(alloc);
    all.push(journal_name(alloc, folder)?)?;
    for session in 0..SESSIONS {
        all.push(snap_name(alloc, folder, session)?)?;
    }
    Ok(Names { folder, all })
}
