//! The games of a journal's rows (own: docs/FORMATS.md, "Transcripts").

ghost use Rattle.std.specs.Prelude.{◌≡◌, ◌++◌, IfOk, OnOk};
ghost use Rattle.story_replay.specs.Games.{commands_from, game_from, games_in, games_of};

use crate::game::Game;
use gate_journal::Row;
use session_core::{Commands, is_open};
use std::alloc::{AllocError, Global};

/// How many numbers a row may have for its session.
const SESSIONS: u16 = 256;

/// Adds a session's commands up to its next OPEN.
fn push_commands(
    alloc: Global,
    session: u8,
    rows: &[Row],
    commands: &mut Commands,
) -> Result<(), AllocError>
    ensures { OnOk result (commands.new ≡ commands.old ++ commands_from session rows.now) }
{
    for at in 0..rows.len() {
        let row = &rows[at];
        if row.session == session {
            if is_open(&row.command) {
                return Ok(());
            }
            commands.push(row.command.copy_of(alloc)?)?;
        }
    }
    Ok(())
}

/// The game that a row opens, before these.
fn game_from(alloc: Global, row: &Row, rows: &[Row]) -> Result<Game, AllocError>
    ensures { IfOk result (λ game. game ≡ game_from row.now rows.now) }
{
    let mut commands = Commands::new(alloc);
    commands.push(row.command.copy_of(alloc)?)?;
    push_commands(alloc, row.session, rows, &mut commands)?;
    Ok(Game {
        session: row.session,
        place: row.place,
        commands,
    })
}

/// Adds the games of one session.
fn push_games(
    alloc: Global,
    session: u16,
    rows: &[Row],
    games: &mut Vec<Game>,
) -> Result<(), AllocError>
    ensures { OnOk result (games.new.items ≡ games.old.items ++ games_in session rows.now) }
{
    for at in 0..rows.len() {
        let row = &rows[at];
        if u16::from(row.session) == session && is_open(&row.command) {
            games.push(game_from(alloc, row, &rows[at + 1..])?)?;
        }
    }
    Ok(())
}

/// The games of these rows, by ascending session and then in the order of the rows: one for each
/// OPEN, with its session's commands up to the session's next OPEN. An error is want of memory.
#[tactic(auto, unfolding(crate::specs::Games::games_of))]
pub fn games(alloc: Global, rows: &[Row]) -> Result<Vec<Game>, AllocError>
    ensures { IfOk result (λ games. games.items ≡ games_of rows.now) }
{
    let mut games = Vec::new(alloc);
    for session in 0..SESSIONS {
        push_games(alloc, session, rows, &mut games)?;
    }
    Ok(games)
}
