//! A snapshot that is to be put (own).

ghost use Rattle.std.specs.Prelude.{◌≡◌, ◌≤◌, IfOk, length};
ghost use Rattle.snap_store.specs.File.{head_bytes};
ghost use Rattle.snap_store.specs.declared.outline.TheConstants.{MAX_SNAPSHOT};

use snap_store::head_bytes;
use std::alloc::{AllocError, Global};
use std::marker::Model;
use story_text::Bytes;

/// An area that a put is to write: the place of its OPEN row, how many inputs are behind it, and
/// the bytes of the snapshot, at most 8,388,608.
#[derive(Drop)]
pub struct NewArea {
    place: u64,
    count: u32,
    bytes: Bytes,
}

impl Model for NewArea {
    ghost use Rattle.std.specs.Prelude.{◌≤◌, length};
    ghost use Rattle.snap_store.specs.File.{Stored};
    ghost use Rattle.snap_store.specs.declared.outline.TheConstants.{MAX_SNAPSHOT};

    ghost Value = { Stored };

    ghost view = { λ a. record { place = a.place; count = a.count; bytes = a.bytes } };

    ghost invariant = { λ a. length a.bytes ≤ MAX_SNAPSHOT };
}

impl NewArea {
    /// The area of this OPEN row after so many inputs.
    pub fn of(place: u64, count: u32, bytes: Bytes) -> NewArea
        requires { length bytes ≤ MAX_SNAPSHOT }
        ensures { result ≡ record { place = place; count = count; bytes = bytes } }
    {
        NewArea {
            place,
            count,
            bytes,
        }
    }

    /// The place of its OPEN row.
    pub fn place(&self) -> u64
        ensures { result ≡ self.now.place }
    {
        self.place
    }

    /// How many inputs are behind it.
    pub fn count(&self) -> u32
        ensures { result ≡ self.now.count }
    {
        self.count
    }

    /// The sixteen bytes with which it starts.
    pub fn head(&self, alloc: Global) -> Result<Bytes, AllocError>
        ensures { IfOk result (λ bytes. bytes
            ≡ head_bytes self.now.place self.now.count (length self.now.bytes)) }
    {
        let length = self.bytes.as_slice().len() as u32;
        let head = head_bytes(self.place, self.count, length);
        Ok(Bytes::of(Vec::from_slice(alloc, &head)?))
    }

    /// The bytes of the snapshot.
    pub fn bytes(&self, alloc: Global) -> Result<Bytes, AllocError>
        ensures { IfOk result (λ bytes. bytes ≡ self.now.bytes) }
    {
        self.bytes.copy_of(alloc)
    }
}
