//! What a session of a story begins with.

/// What a session begins with: the seed of its random words, its screen in columns and rows of
/// characters, and the budget of each of its turns in ticks.
#[derive(Clone, Copy, Debug, PartialEq, Eq)]
pub struct Setup {
    pub seed: u64,
    pub cols: u8,
    pub rows: u8,
    pub budget: u64,
}
