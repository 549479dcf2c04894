//! How the work at a door ends (own).
use crate::door::Door;

/// How the work at a door ends.
#[derive(Drop)]
pub enum Worked<O: Door> {
    /// Each worker was told that the door is shut, and one of them this.
    Shut(O::End),
    /// The door failed.
    DoorFault(O::Fault),
}
