//! How a turn came to rest.

ghost use Rattle.std.specs.Prelude.{◌≡◌};
ghost use Rattle.story_run.specs.Solo.{is_at_end};
ghost use Rattle.story_run.specs.World.{answer_awaited};

use glk_dispatch::Called;
use vm_exec::Machine;

/// A story that waits for its player, at a select or at a prompt for a file's name; or one that is
/// over, by its own quitting or by a fault, whose machine is put away.
#[derive(Drop)]
pub enum Stage<'i> {
    AtSelect(Machine<'i>),
    AtPrompt(Machine<'i>),
    Quit,
    Fault(u8),
}

impl Stage<'_> {
    /// Whether the story is over.
    pub(crate) fn is_at_end(&self) -> bool
        ensures { result ≡ is_at_end self.now }
    {
        matches!(self, Stage::Quit | Stage::Fault(_))
    }

    /// The answer of the call with which the Glk state waits; that of an exit once the story is
    /// over.
    pub(crate) fn answer(&self) -> Called
        ensures { result ≡ answer_awaited self.now }
    {
        match self {
            Stage::AtSelect(_) => Called::Wait,
            Stage::AtPrompt(_) => Called::Prompt,
            Stage::Quit | Stage::Fault(_) => Called::Exit,
        }
    }
}
