//! The two areas of a file, and where they stand (own).

ghost use Rattle.std.specs.Prelude.{◌≡◌};
ghost use Rattle.snap_store.specs.File.{gate_of, side_start};
ghost use Rattle.snap_store.specs.Slots.{opposite_side};

/// The place of the gate of area A. Areas of before, whose gates stood at 8 and 9, have other bytes and
/// are closed.
pub const GATE_A: u64 = 10;

/// The place of the gate of area B.
pub const GATE_B: u64 = 11;

/// One of the two areas.
#[derive(Clone, Copy)]
pub enum Side {
    A,
    B,
}

impl Side {
    /// The place of its gate.
    pub fn gate(self) -> u64
        ensures { result ≡ gate_of self }
    {
        match self {
            Side::A => GATE_A,
            Side::B => GATE_B,
        }
    }

    /// The place where it starts.
    pub fn start(self) -> u64
        ensures { result ≡ side_start self }
    {
        match self {
            Side::A => 4096,
            Side::B => 8_392_720,
        }
    }

    /// The other one.
    pub fn other(self) -> Side
        ensures { result ≡ opposite_side self }
    {
        match self {
            Side::A => Side::B,
            Side::B => Side::A,
        }
    }
}
