//! What windows ask a player for, and the delivery of what a player gives.
#![tactic(auto)]

mod deliver;
mod event;
mod keys;
mod laws;
mod request;
mod requests;
mod valid;

pub use event::Event;
pub use keys::{Keys, MAX_KEYS};
pub use laws::windows_stay_valid;
pub use request::{LineRequest, Request, WindowInput};
pub use requests::Requests;
