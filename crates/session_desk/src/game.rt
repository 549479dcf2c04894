//! Where the last game of a session begins among its commands (own).

ghost use Rattle.std.specs.Prelude.{◌≡◌, ◌≤◌, ◌++◌, ◌∷◌, [], length};
ghost use Rattle.session_core.specs.History.{game_of};
ghost use Rattle.session_saves.specs.Game.{inputs_of};
ghost use Rattle.session_desk.specs.Desk.{BeginsAt};

use gate_journal::Command;
use session_core::game_of;
use session_saves::inputs_of;

/// The place in these commands.
#[tactic(auto, using(crate::proofs::GameLemmas::begins_there))]
pub fn begins_of(commands: &[Command]) -> usize
    ensures { BeginsAt result commands.now }
{
    commands.len() - game_of(commands).len()
}

/// The place in these commands with one more.
pub fn begins_with(commands: &[Command], begins: usize, command: &Command) -> usize
    requires { BeginsAt begins commands.now }
    ensures { BeginsAt result (commands.now ++ command.now ∷ []) }
{
    let count = commands.len();
    if command.is_open() {
        count
    } else if begins == count {
        count + 1
    } else {
        begins
    }
}

/// The last OPEN and the commands since, which begin at this place.
pub fn game_at(commands: &[Command], begins: usize) -> &[Command]
    requires { BeginsAt begins commands.now }
    ensures value { result.now ≡ game_of commands.now }
    ensures within { length result.now ≤ length commands.now }
{
    &commands[begins..]
}

/// How many inputs it has.
pub fn inputs_at(commands: &[Command], begins: usize) -> u32
    requires begins { BeginsAt begins commands.now }
    requires within { length commands.now ≤ 8192 }
    ensures { result ≡ length (inputs_of (game_of commands.now)) }
{
    inputs_of(game_at(commands, begins)) as u32
}
