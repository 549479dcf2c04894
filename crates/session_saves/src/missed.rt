//! Puts that were prevented, by cause (own).

ghost use Rattle.std.specs.Prelude.{◌≡◌};
ghost use Rattle.session_saves.specs.Saves.{none_missed, one_more, with_cause};

/// Why a snapshot wasn't put.
#[derive(Clone, Copy, Debug, PartialEq, Eq)]
pub enum Cause {
    /// Memory ran out.
    NoMemory,
    /// It has more bytes than an area takes.
    TooLong,
    /// The store's disk failed.
    DiskFailed,
    /// The store's file has no header.
    NotMade,
}

/// How many puts were prevented, by cause. At the end of a u64 a count stands still.
#[derive(Clone, Copy, Debug, PartialEq, Eq)]
pub struct Missed {
    /// Memory ran out.
    pub memory: u64,
    /// The snapshot had more bytes than an area takes.
    pub size: u64,
    /// The store's disk failed.
    pub fault: u64,
    /// The store's file had no header.
    pub none: u64,
}

fn one_more(count: u64) -> u64
    ensures { result ≡ one_more count }
{
    count.saturating_add(1)
}

impl Missed {
    /// Nothing was missed.
    pub fn nothing() -> Missed
        ensures { result ≡ none_missed }
    {
        Missed {
            memory: 0,
            size: 0,
            fault: 0,
            none: 0,
        }
    }

    /// One more, by this cause.
    pub fn count(&mut self, cause: Cause)
        ensures { self.new ≡ with_cause cause self.old }
    {
        match cause {
            Cause::NoMemory => self.memory = one_more(self.memory),
            Cause::TooLong => self.size = one_more(self.size),
            Cause::DiskFailed => self.fault = one_more(self.fault),
            Cause::NotMade => self.none = one_more(self.none),
        }
    }
}
