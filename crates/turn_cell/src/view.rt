//! What the table keeps of each pass, for proofs alone.
use std::collections::LinkedList;

/// Where a pass is in its turn.
pub enum Stage<E> {
    /// In no turn.
    Idle,
    /// It waits with this ticket.
    Waits(u64),
    /// This ticket of its is served: it has the value.
    Served(u64),
    /// It was just joined: what the two had seen, each with the numbers that it held.
    Joined(LinkedList<E>, LinkedList<u64>, LinkedList<E>, LinkedList<u64>),
}

/// What a pass knows of its cell. No value of this type is ever made.
pub struct View<E, T> {
    pub stage: Stage<E>,
    pub number: u64,
    /// How many passes were split from it.
    pub made: u64,
    /// Its own number, and those of the passes joined into it.
    pub holds: LinkedList<u64>,
    /// A list that the cell's history begins with.
    pub seen: LinkedList<E>,
    /// The value with which the cell was made, for its tag. `None` in a view that is spent.
    pub sample: Option<T>,
}
