//! What a search is asked, and what it found.

ghost use Rattle.std.specs.Prelude.{◌≡◌, OnOk, IfErr, true, false};
ghost use Rattle.vm_search.specs.Key as spec;
ghost use Rattle.vm_search.specs.Ending as spec_ending;
ghost use Rattle.vm_search.specs.Linear as spec_linear;
ghost use Rattle.vm_search.specs.declared.fault.SearchStop.TheVariants.{BadSearch};

use crate::fault::SearchStop;

/// The places of structures come again after so many.
pub(crate) const STEPS: u64 = 4_294_967_296;

/// A search: the key or its address, its size in bytes, the first structure's address, a
/// structure's size in bytes and the count of structures (of no use in a linked search), the
/// offsets of the key and of the next place, the options (1 KeyIndirect, 2 ZeroKeyTerminates,
/// 4 ReturnIndex), and how many structures may be looked at.
#[derive(Clone, Copy, Debug, PartialEq, Eq)]
pub struct Query {
    pub key: u32,
    pub key_size: u32,
    pub start: u32,
    pub struct_size: u32,
    pub count: u32,
    pub key_offset: u32,
    pub next_offset: u32,
    pub options: u32,
    pub left: u64,
}

/// The answer of a search, and how many structures it looked at.
#[derive(Clone, Copy, Debug, PartialEq, Eq)]
pub struct Found {
    pub answer: u32,
    pub looked: u64,
}

impl Query {
    pub(crate) fn is_indirect(&self) -> bool
        ensures value { result ≡ spec.is_indirect self.now }
    {
        self.options & 1 != 0
    }

    pub(crate) fn ends_at_zero(&self) -> bool
        ensures value { result ≡ spec.ends_at_zero self.now }
    {
        self.options & 2 != 0
    }

    pub(crate) fn gives_index(&self) -> bool
        ensures value { result ≡ spec.gives_index self.now }
    {
        self.options & 4 != 0
    }

    /// BadSearch exactly where the key's size is none.
    pub(crate) fn check(&self) -> Result<(), SearchStop>
        ensures ok { OnOk result (spec.is_search self.now ≡ true) }
        ensures err { IfErr result (λ stop. stop ≡ BadSearch) }
        ensures cause { IfErr result (λ stop. spec.is_search self.now ≡ false) }
    {
        let good = if self.is_indirect() {
            self.key_size != 0
        } else {
            self.key_size == 1 || self.key_size == 2 || self.key_size == 4
        };
        if good {
            Ok(())
        } else {
            Err(SearchStop::BadSearch)
        }
    }

    /// The address of the structure with the index.
    pub(crate) fn structure_at(&self, index: u32) -> u32
        ensures value { result ≡ spec_linear.structure_at self.now index }
    {
        self.start
            .wrapping_add(index.wrapping_mul(self.struct_size))
    }

    /// The answer for the structure with the index.
    pub(crate) fn found_at(&self, index: u32) -> u32
        ensures value { result ≡ spec_linear.found_at self.now index }
    {
        if self.gives_index() {
            index
        } else {
            self.structure_at(index)
        }
    }

    /// Whether the index is past the last structure; a count of -1 is no limit.
    pub(crate) fn is_past(&self, index: u64) -> bool
        ensures value { result ≡ spec_linear.is_past self.now index }
    {
        self.count != u32::MAX && u64::from(self.count) == index
    }

    /// The answer where nothing is found.
    pub(crate) fn failure(&self) -> u32
        ensures value { result ≡ spec_ending.failure self.now }
    {
        if self.gives_index() { u32::MAX } else { 0 }
    }
}
