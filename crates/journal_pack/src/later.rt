//! What later rows say of the rows before them (own).

ghost use Rattle.std.specs.Prelude.{◌≡◌, [], ◌∷◌, List};
ghost use Rattle.gate_journal.specs.declared.row.Row.{Row};
ghost use Rattle.journal_pack.specs.Live.{is_live};
ghost use Rattle.journal_pack.specs.Later.{SaysLater};

use gate_journal::Command;

/// Of each session, by rows that are read from the last one on: whether one was met, and whether
/// those before it are live then.
#[derive(Drop)]
pub struct Later {
    pub met: [bool; 256],
    pub live: [bool; 256],
}

impl Later {
    /// Before any row is met.
    pub fn new() -> Later
        ensures { SaysLater [] result.met result.live }
    {
        Later {
            met: [false; 256],
            live: [false; 256],
        }
    }

    /// Whether a row of this session with this command is live. It is met from then on.
    pub fn meet(&mut self, session: u8, command: &Command) -> bool
        ensures { (rows : List Row) (r : Row) → r.session ≡ session → r.command ≡ command.now
            → SaysLater rows self.old.met self.old.live
            → (result ≡ is_live r rows) × SaysLater (r ∷ rows) self.new.met self.new.live }
    {
        let at = usize::from(session);
        let is_live = if self.met[at] {
            self.live[at]
        } else {
            !command.is_close()
        };
        self.met[at] = true;
        self.live[at] = is_live && !command.is_open();
        is_live
    }
}
