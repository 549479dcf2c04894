//! The snapshot of a session that is due (own).

ghost use Rattle.std.specs.Prelude.{◌≡◌, length, IfOk, IfSome};
ghost use Rattle.session_saves.specs.Game.{inputs_of};
ghost use Rattle.host_world.specs.Keeping.{HasWorldOf, IsOwnSnapshot, due_snapshot, snapshot_of};

use crate::rows::JournalRows;
use gate_journal::Command;
use session_core::{game_of, is_in_use, is_other_story, world_of};
use session_saves::inputs_of;
use std::alloc::{AllocError, Global};
use store_events::StoreState;
use story_run::Story;
use story_snap::to_bytes;
use story_text::Bytes;

/// A snapshot: the place of its OPEN row, how many inputs are behind it, and the bytes of its world.
#[derive(Drop)]
pub struct Snapshot {
    pub place: u64,
    pub count: u32,
    pub bytes: Bytes,
}

// The snapshot of the world that a game has come to behind an OPEN row at this place, after so many
// inputs; none where its story isn't there.
fn snapshot_of(
    alloc: Global,
    stories: &[Story],
    game: &[Command],
    place: u64,
    count: u32,
) -> Result<Option<Snapshot>, AllocError>
    requires { count ≡ length (inputs_of game.now) }
    ensures value { IfOk result (λ made. made ≡ snapshot_of stories.now game.now place) }
    ensures has { IfOk result (λ made. IfSome made (HasWorldOf stories.now game.now)) }
{
    let Some(world) = world_of(alloc, stories, game)? else {
        return Ok(None);
    };
    let bytes = Bytes::of(to_bytes(alloc, &world)?);
    Ok(Some(Snapshot {
        place,
        count,
        bytes,
    }))
}

/// The snapshot of a session that is due by a journal's rows, and not stored in its file: of its
/// last OPEN row, after the inputs since. None where there is no such one, the session isn't in use,
/// its story isn't there or has another digest than the row.
pub fn due_snapshot(
    alloc: Global,
    stories: &[Story],
    rows: &JournalRows,
    s: u8,
    file: &StoreState,
) -> Result<Option<Snapshot>, AllocError>
    ensures value { IfOk result (λ made. made ≡ due_snapshot stories.now rows.now s file.now) }
    ensures own { IfOk result (λ made. IfSome made
        (IsOwnSnapshot stories.now rows.now s file.now)) }
{
    let Some(place) = rows.last_open(s) else {
        return Ok(None);
    };
    let commands = rows.commands_of(alloc, s)?;
    let game = game_of(&commands);
    let inputs = inputs_of(game);
    let (Ok(place), Ok(count)) = (u64::try_from(place), u32::try_from(inputs)) else {
        return Ok(None);
    };
    if !is_in_use(game) || !file.is_due(place, count) || is_other_story(stories, game) {
        return Ok(None);
    }
    snapshot_of(alloc, stories, game, place, count)
}
