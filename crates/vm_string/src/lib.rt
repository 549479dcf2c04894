//! Strings: what an object in memory prints, piece by piece.
#![tactic(auto)]

mod descent;
mod next;
mod node;
mod piece;
mod stop;
mod walk;

pub use next::next_piece;
pub use piece::{Cursor, Piece};
pub use stop::StringStop;
