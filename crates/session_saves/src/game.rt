//! A session's game: its story and its inputs (own).

ghost use Rattle.std.specs.Prelude.{◌≡◌, length, drop, is_some, None, Some, MatchOption};
ghost use Rattle.std.specs.List.{filter_map};
ghost use Rattle.session_core.specs.History.{input_of};
ghost use Rattle.session_saves.specs.Game.{inputs_of, opening_setup, opened_story};

use gate_journal::Command;
use session_core::story_at;
use story_run::{Setup, Story};

/// The story of a game, where it is there, and what its OPEN begins it with.
pub fn opened<'a, 'i>(stories: &'a [Story<'i>], game: &[Command]) -> Option<(&'a Story<'i>, Setup)>
    ensures { MatchOption result (opened_story stories.now game.now ≡ None)
        (λ x. (opened_story stories.now game.now ≡ Some x.0.now) × (x.1 ≡ opening_setup game.now)) }
{
    match game {
        [
            Command::Open {
                story,
                seed,
                cols,
                rows,
                budget,
                ..
            },
            ..
        ] => match story_at(stories, u32::from(*story)) {
            Some(story) => Some((
                story,
                Setup {
                    seed: *seed,
                    cols: *cols,
                    rows: *rows,
                    budget: *budget,
                },
            )),
            None => None,
        },
        _ => None,
    }
}

// The command gives its story something.
fn is_input(command: &Command) -> bool
    ensures { result ≡ is_some (input_of command.now) }
{
    match command {
        Command::Line { .. } | Command::Char { .. } | Command::File { .. } | Command::Size { .. } =>
            true,
        Command::Open { .. } | Command::Close => false,
    }
}

/// How many inputs came since the OPEN.
pub fn inputs_of(game: &[Command]) -> usize
    ensures value { result ≡ length (inputs_of game.now) }
{
    let mut count = 0;
    for at in 0..game.len() {
        if is_input(&game[at]) {
            count += 1;
        }
    }
    count
}

/// The commands behind the first inputs, as many as this.
pub fn behind(game: &[Command], inputs: u32) -> &[Command]
    ensures { filter_map input_of result.now ≡ drop inputs (inputs_of game.now) }
{
    let mut left = inputs;
    for at in 0..game.len() {
        if left == 0 {
            return &game[at..];
        }
        if is_input(&game[at]) {
            left -= 1;
        }
    }
    &[]
}
