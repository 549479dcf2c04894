//! The parts of a show (own: docs/FORMATS.md, "Shows").

ghost use Rattle.std.specs.Prelude.{◌≡◌};

use glk_windows::Codes;
use std::marker::Model;

/// Where a window is on the screen, in characters. `kind` is its type: 2 blank, 3 buffer, 4 grid.
#[derive(Clone, Copy, Debug, PartialEq, Eq)]
pub struct Place {
    pub id: u32,
    pub kind: u32,
    pub x: u32,
    pub y: u32,
    pub w: u32,
    pub h: u32,
}

/// What a window shows: that a buffer was cleared, a run of one style, or a row of a grid.
#[derive(Drop)]
pub enum Part {
    Clear { id: u32 },
    Run { id: u32, style: u32, text: Codes },
    GridRow { id: u32, y: u32, text: Codes },
}

/// How the story ended, or one thing that it awaits.
#[derive(Drop)]
pub enum End {
    Quit,
    Fault(u8),
    Prompt { usage: u32, mode: u32 },
    WantLine { id: u32, max: u32, initial: Codes },
    WantChar { id: u32 },
}

/// The places of a show.
#[derive(Drop)]
pub struct Places {
    items: Vec<Place>,
}

impl Model for Places {
    ghost use Rattle.std.specs.Prelude.{List};
    ghost use Rattle.story_show.specs.declared.show.Place.{Place};

    ghost Value = { List Place };

    ghost view = { λ p. p.items.items };
}

impl Places {
    /// These places.
    pub fn of(items: Vec<Place>) -> Places
        ensures { result ≡ items.items }
    {
        Places { items }
    }

    /// The list, lent.
    pub fn as_slice(&self) -> &[Place]
        ensures { result.now ≡ self.now }
    {
        &self.items
    }
}

/// The parts of a show.
#[derive(Drop)]
pub struct Parts {
    items: Vec<Part>,
}

impl Model for Parts {
    ghost use Rattle.std.specs.Prelude.{List};
    ghost use Rattle.story_show.specs.declared.show.Part.{Part};

    ghost Value = { List Part };

    ghost view = { λ p. p.items.items };
}

impl Parts {
    /// These parts.
    pub fn of(items: Vec<Part>) -> Parts
        ensures { result ≡ items.items }
    {
        Parts { items }
    }

    /// The list, lent.
    pub fn as_slice(&self) -> &[Part]
        ensures { result.now ≡ self.now }
    {
        &self.items
    }
}

/// The ends of a show: one where the story is over or asks for a file, else one for each request.
#[derive(Drop)]
pub struct Ends {
    items: Vec<End>,
}

impl Model for Ends {
    ghost use Rattle.std.specs.Prelude.{List};
    ghost use Rattle.story_show.specs.declared.show.End.{End};

    ghost Value = { List End };

    ghost view = { λ e. e.items.items };
}

impl Ends {
    /// These ends.
    pub fn of(items: Vec<End>) -> Ends
        ensures { result ≡ items.items }
    {
        Ends { items }
    }

    /// The list, lent.
    pub fn as_slice(&self) -> &[End]
        ensures { result.now ≡ self.now }
    {
        &self.items
    }
}

/// What a player sees of a turn.
#[derive(Drop)]
pub struct Show {
    pub places: Places,
    pub parts: Parts,
    pub ends: Ends,
}
