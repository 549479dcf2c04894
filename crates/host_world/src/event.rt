//! What may happen to a host (own).

ghost use Rattle.std.specs.Prelude.{◌≡◌, List, ℕ};

use crate::items::Items;
use std::marker::Model;
use story_text::Bytes;

/// The bytes that a stop leaves on each disk: the journal's, and then those of the files by session.
#[derive(Drop)]
pub struct Images {
    list: Items<Bytes>,
}

impl Model for Images {
    ghost Value = { List (List ℕ) };

    ghost view = { λ i. i.list };
}

impl Images {
    /// The images of the vector.
    pub fn of(list: Vec<Bytes>) -> Images
        ensures { result ≡ list.items }
    {
        Images {
            list: Items::of(list),
        }
    }

    /// The images, lent.
    pub fn as_slice(&self) -> &[Bytes]
        ensures { result.now ≡ self.now }
    {
        self.list.as_slice()
    }
}

/// An event of a host with its journal alone. One that isn't enabled changes nothing; so one that
/// names no session below 64, no disk (the journal's is 0), or another number of images than one.
#[derive(Drop)]
pub enum JournalEvent {
    /// The session `s` begins a turn by the pass of this number, with this line, given without LF.
    Take { s: u8, pass: u64, line: Bytes },
    /// Memory runs out in its turn before an append has begun.
    Want { s: u8 },
    /// It takes the journal.
    Hold { s: u8 },
    /// The disk makes its next call. Where that isn't good the disk reads as `reads` from then on.
    Call { disk: u8, good: bool, reads: Bytes },
    /// It gives the journal back.
    Free { s: u8 },
    /// It answers; `found` says whether memory for the reply was found.
    Run { s: u8, found: bool },
    /// Its history takes the entry.
    Accept { s: u8 },
    /// Its reply is given, and the turn ends.
    Give { s: u8 },
    /// The host stops, and its disks hold these images.
    Stop { images: Images },
    /// An opening begins.
    Recover,
}
