//! A disk that makes so many calls of another disk and then fails for good.
#![tactic(auto)]

mod dying;

pub use dying::Dying;
