//! The three searches, and blocks that are copied or cleared.
#![tactic(auto)]

mod binary_search;
mod blocks;
mod fault;
mod key;
mod laws;
mod linear_search;
mod linked_search;
mod query;

pub use binary_search::binary;
pub use blocks::{copy, zero};
pub use fault::SearchStop;
pub use laws::{ends_soon_or_never, finds_or_fails, meets_or_misses};
pub use linear_search::linear;
pub use linked_search::linked;
pub use query::{Found, Query};
