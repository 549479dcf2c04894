//! A session's history (own).

ghost use Rattle.std.specs.Prelude.{◌≡◌, ◌≤◌, length, None, Some, MatchOption};
ghost use Rattle.session_core.specs.History.{story_at, game_of, command_count, is_in_use};
ghost use Rattle.gate_journal.specs.Rows.{is_open};

use gate_journal::Command;
use story_run::Story;

/// The story of a number.
pub fn story_at<'a, 'i>(stories: &'a [Story<'i>], number: u32) -> Option<&'a Story<'i>>
    ensures { MatchOption result (story_at stories.now number ≡ None)
        (λ story. story_at stories.now number ≡ Some story.now) }
{
    if number < 65536 {
        stories.get(number as usize)
    } else {
        None
    }
}

/// The command opens a session.
pub fn is_open(command: &Command) -> bool
    ensures { result ≡ is_open command.now }
{
    matches!(command, Command::Open { .. })
}

/// The last OPEN and the commands accepted since.
pub fn game_of(history: &[Command]) -> &[Command]
    ensures value { result.now ≡ game_of history.now }
    ensures within { length result.now ≤ length history.now }
{
    let mut game: &[Command] = &[];
    for at in 0..history.len() {
        if is_open(&history[at]) {
            game = &history[at..];
        }
    }
    game
}

/// How many commands were accepted since the OPEN.
pub fn count(game: &[Command]) -> u32
    requires { length game.now ≤ 8192 }
    ensures { result ≡ command_count game.now }
{
    if game.is_empty() {
        0
    } else {
        (game.len() - 1) as u32
    }
}

pub fn is_in_use(game: &[Command]) -> bool
    ensures { result ≡ is_in_use game.now }
{
    match game.last() {
        None => false,
        Some(Command::Close) => false,
        Some(_) => true,
    }
}
