//! The world that a desk holds (own).

ghost use Rattle.std.specs.Prelude.{◌≡◌, IfOk};
ghost use Rattle.std.specs.Option.{option_copied};
ghost use Rattle.session_desk.specs.Desk.{aside, held_of, held_then, world_now};

use gate_journal::Command;
use session_core::{is_in_use, turned, world_of};
use std::alloc::{AllocError, Global};
use story_run::{Story, World};

/// What is held of a session's world.
#[derive(Drop)]
pub enum Held<'i> {
    Nothing,
    /// The world that the commands have come to.
    Current(World<'i>),
    /// The world that the last command turns into that.
    Previous(World<'i>),
}

impl<'i> Held<'i> {
    /// The world of the session as it is now, if that is held.
    pub fn now(&self) -> Option<&World<'i>>
        ensures { option_copied result ≡ world_now self.now }
    {
        match self {
            Held::Current(world) => Some(world),
            Held::Nothing | Held::Previous(_) => None,
        }
    }
}

/// The world of a session that was just opened, or nothing of one that was closed.
fn begun<'i>(alloc: Global, stories: &[Story<'i>], game: &[Command]) -> Result<Held<'i>, AllocError>
    ensures { IfOk result (λ held. held ≡ held_of stories.now game.now) }
{
    if !is_in_use(game) {
        return Ok(Held::Nothing);
    }
    match world_of(alloc, stories, game)? {
        Some(world) => Ok(Held::Current(world)),
        None => Ok(Held::Nothing),
    }
}

/// What is held once the last command was run.
pub fn ran<'i>(
    alloc: Global,
    stories: &[Story<'i>],
    game: &[Command],
    held: Held<'i>,
) -> Result<Held<'i>, AllocError>
    ensures { IfOk result (λ now. now ≡ held_then stories.now game.now held.entry) }
{
    match held {
        Held::Nothing => begun(alloc, stories, game),
        Held::Current(world) => Ok(Held::Current(world)),
        Held::Previous(world) => match game.last() {
            Some(command) => {
                let world = turned(alloc, world, command)?;
                Ok(Held::Current(world))
            }
            None => Ok(Held::Current(world)),
        },
    }
}

/// What is set aside of a world as the command comes.
pub fn aside<'i>(command: &Command, held: Held<'i>) -> Held<'i>
    ensures { result ≡ aside command.now held.entry }
{
    match command {
        Command::Open { .. } | Command::Close => Held::Nothing,
        Command::Line { .. } | Command::Char { .. } | Command::File { .. } | Command::Size { .. } =>
            match held {
                Held::Current(world) => Held::Previous(world),
                Held::Nothing | Held::Previous(_) => Held::Nothing,
            },
    }
}
