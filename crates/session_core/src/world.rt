//! The world that a session has come to (own).

ghost use Rattle.std.specs.Prelude.{◌≡◌, ◌+◌, IfOk, OnOk, OnErr, None, Some, MatchOption};
ghost use Rattle.std.specs.List.{filter_map};
ghost use Rattle.story_run.specs.Solo.{opening, turned_by, world_after};
ghost use Rattle.session_core.specs.History.{story_at, input_of, turned_on, world_of};
ghost use Rattle.session_core.specs.Turns.{turns_on, turns_by, turns_of, RisesByUpTo};

use crate::history::story_at;
use gate_journal::Command;
use std::alloc::{AllocError, Global};
use std::marker::Brand;
use std::sync::ledger::{Blank, Ledger};
use story_run::{Setup, Steps, Story, World};
use story_text::Input;

/// What a command gives the story.
pub fn input_of(alloc: Global, command: &Command) -> Result<Option<Input>, AllocError>
    ensures { IfOk result (λ input. input ≡ input_of command.now) }
{
    Ok(match command {
        Command::Line { win, term, text } => Some(Input::Line {
            win: *win,
            text: text.copy_of(alloc)?,
            key: *term,
        }),
        Command::Char { win, code } => Some(Input::Char {
            win: *win,
            code: *code,
        }),
        Command::File { name } => Some(Input::File {
            name: name.copy_of(alloc)?,
        }),
        Command::Size { cols, rows } => Some(Input::Size {
            cols: *cols,
            rows: *rows,
        }),
        Command::Open { .. } | Command::Close => None,
    })
}

/// The world after what a command gives the story. An input that isn't wanted leaves it; one that
/// is takes a turn, which is one step. Where memory runs out the world is gone.
pub fn turn_on<'i, L: Ledger>(
    alloc: Global,
    world: World<'i>,
    command: &Command,
    steps: &mut Steps<L>,
) -> Result<World<'i>, AllocError>
    ensures value { IfOk result (λ after. after ≡ turned_on world.entry (input_of command.now)) }
    ensures cost { OnOk result
        (steps.new ≡ steps.old + turns_on world.entry (input_of command.now)) }
    ensures err { OnErr result
        (RisesByUpTo (turns_on world.entry (input_of command.now)) steps.old steps.new) }
{
    match input_of(alloc, command)? {
        Some(input) => {
            if world.wants(&input) {
                world.turn(alloc, &input, steps)
            } else {
                Ok(world)
            }
        }
        None => Ok(world),
    }
}

/// The same with a count of its own, which begins with this blank.
fn turn_uncounted<'i, L: Ledger>(
    alloc: Global,
    world: World<'i>,
    command: &Command,
    blank: Blank,
) -> Result<World<'i>, AllocError>
    requires name { blank.name ≡ L.name }
    requires parts { blank.parts ≡ L.parts }
    requires one { L.parts ≡ 1 }
    ensures { IfOk result (λ after. after ≡ turned_on world.entry (input_of command.now)) }
{
    let mut steps = Steps::<L>::new(blank);
    turn_on(alloc, world, command, &mut steps)
}

/// The world after what a command gives the story.
pub fn turned<'i>(
    alloc: Global,
    world: World<'i>,
    command: &Command,
) -> Result<World<'i>, AllocError>
    ensures { IfOk result (λ after. after ≡ turned_on world.entry (input_of command.now)) }
{
    turn_uncounted::<Brand>(alloc, world, command, Blank::new(1))
}

/// The world after what these commands give the story, one after the other. Each turn is one step.
pub fn play_on<'i, L: Ledger>(
    alloc: Global,
    world: World<'i>,
    commands: &[Command],
    steps: &mut Steps<L>,
) -> Result<World<'i>, AllocError>
    ensures value { IfOk result (λ after. after
        ≡ turned_by world.entry (filter_map input_of commands.now)) }
    ensures cost { OnOk result (steps.new
        ≡ steps.old + turns_by world.entry (filter_map input_of commands.now)) }
    ensures err { OnErr result (RisesByUpTo
        (turns_by world.entry (filter_map input_of commands.now)) steps.old steps.new) }
{
    let mut after = world;
    for at in 0..commands.len() {
        after = turn_on(alloc, after, &commands[at], steps)?;
    }
    Ok(after)
}

/// The world of a story after the inputs of these commands.
fn play<'i, L: Ledger>(
    alloc: Global,
    story: &Story<'i>,
    setup: Setup,
    after: &[Command],
    steps: &mut Steps<L>,
) -> Result<World<'i>, AllocError>
    ensures value { IfOk result (λ world. world
        ≡ world_after story.now.image setup (filter_map input_of after.now)) }
    ensures cost { OnOk result (steps.new
        ≡ steps.old + turns_by (opening story.now.image setup) (filter_map input_of after.now)) }
    ensures err { OnErr result (RisesByUpTo
        (turns_by (opening story.now.image setup) (filter_map input_of after.now))
        steps.old steps.new) }
{
    let world = World::start(alloc, story, setup)?;
    play_on(alloc, world, after, steps)
}

/// The world that a game has come to, played from the start, or none where its story isn't there.
/// Each turn is one step.
pub fn replay<'i, L: Ledger>(
    alloc: Global,
    stories: &[Story<'i>],
    game: &[Command],
    steps: &mut Steps<L>,
) -> Result<Option<World<'i>>, AllocError>
    ensures value { IfOk result (λ world. world ≡ world_of stories.now game.now) }
    ensures cost { OnOk result (steps.new ≡ steps.old + turns_of stories.now game.now) }
    ensures err { OnErr result
        (RisesByUpTo (turns_of stories.now game.now) steps.old steps.new) }
{
    match game {
        [
            Command::Open {
                story,
                seed,
                cols,
                rows,
                budget,
                ..
            },
            after @ ..,
        ] => match story_at(stories, u32::from(*story)) {
            Some(story) => {
                let setup = Setup {
                    seed: *seed,
                    cols: *cols,
                    rows: *rows,
                    budget: *budget,
                };
                let world = play(alloc, story, setup, after, steps)?;
                Ok(Some(world))
            }
            None => Ok(None),
        },
        _ => Ok(None),
    }
}

/// The same with a count of its own, which begins with this blank.
fn replay_uncounted<'i, L: Ledger>(
    alloc: Global,
    stories: &[Story<'i>],
    game: &[Command],
    blank: Blank,
) -> Result<Option<World<'i>>, AllocError>
    requires name { blank.name ≡ L.name }
    requires parts { blank.parts ≡ L.parts }
    requires one { L.parts ≡ 1 }
    ensures { IfOk result (λ world. world ≡ world_of stories.now game.now) }
{
    let mut steps = Steps::<L>::new(blank);
    replay(alloc, stories, game, &mut steps)
}

/// The world that a game has come to, or none where its story isn't there.
pub fn world_of<'i>(
    alloc: Global,
    stories: &[Story<'i>],
    game: &[Command],
) -> Result<Option<World<'i>>, AllocError>
    ensures { IfOk result (λ world. world ≡ world_of stories.now game.now) }
{
    replay_uncounted::<Brand>(alloc, stories, game, Blank::new(1))
}
