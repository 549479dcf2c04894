//! How far a script has come (own).

ghost use Rattle.std.specs.Prelude.{◌≡◌, ◌+◌, ◌<◌, ◌^◌, ◌≤◌, ℕ};
ghost use Rattle.story_make.specs.Script.{script_start, place_after_turn};
ghost use Rattle.story_make.specs.Lines.{kept_place};

use crate::line::Line;

/// The number of the last command that was given in its order, 0 before the first, and the last
/// line.
#[derive(Clone, Copy)]
pub struct Place {
    pub sent: u64,
    pub line: Line,
}

impl Place {
    /// Where the script of a number begins.
    pub fn begun(number: u64) -> Place
        ensures { (s : ℕ) → kept_place s result ≡ script_start number s }
    {
        Place {
            sent: 0,
            line: Line::Open { number },
        }
    }

    /// The place after the turn that takes this word.
    pub fn turned(self, word: u32) -> Place
        requires { self.sent < 2 ^ 32 }
        ensures value { (s : ℕ)
            → kept_place s result ≡ place_after_turn s word (kept_place s self) }
        ensures within { result.sent ≤ self.sent + 1 }
    {
        match word % 10 {
            0 => self,
            1 => Place {
                line: Line::Skip { n: self.sent + 2 },
                ..self
            },
            _ => {
                let n = self.sent + 1;
                Place {
                    sent: n,
                    line: Line::Next { n, word },
                }
            }
        }
    }
}
