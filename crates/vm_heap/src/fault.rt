//! What a call of the heap refuses.

/// No block begins at the address.
#[derive(Clone, Copy, Debug, PartialEq, Eq)]
pub enum HeapFault {
    BadBlock(u32),
}
