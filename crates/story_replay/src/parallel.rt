//! The texts of games, made by threads.

ghost use Rattle.std.specs.Prelude.{◌≡◌, map, IfOk};
ghost use Rattle.story_replay.specs.Text.{game_text};

use crate::game::Game;
use crate::text::game_text;
use rayon::prelude::*;
use std::alloc::{AllocError, Global};
use std::thread::Threads;
use story_run::Story;
use story_text::Bytes;

/// What the players of these games were shown: one text a game, in their order. Each game is played
/// from its OPEN; how many threads share the games is left open. All texts are held at once. An
/// error is want of memory.
pub fn texts<R: Threads + Sync>(
    rt: &R,
    alloc: Global,
    stories: &[Story<'_>],
    games: &[Game],
) -> Result<Vec<Bytes>, AllocError>
    ensures { IfOk result (λ texts. texts.items ≡ map (game_text stories.now) games.now) }
{
    games
        .par_iter()
        .with_min_len(1)
        .map(
            |game: &Game| -> Result<Bytes, AllocError>
                ensures { IfOk result (λ text. text ≡ game_text stories.entry.now game.now) }
            { game_text(alloc, stories, game) },
        )
        .collect::<Result<Vec<Bytes>, AllocError>>(rt, alloc)?
}
