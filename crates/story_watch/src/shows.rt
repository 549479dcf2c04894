//! The shows of a game, one after the other (own).

ghost use Rattle.std.specs.Prelude.{◌≡◌, ◌≤◌, ◌<◌, ◌+◌, ◌-◌, ◌++◌, length, IfOk, OnOk};
ghost use Rattle.line_words.specs.Reply.{print_show};
ghost use Rattle.session_core.specs.History.{input_of};
ghost use Rattle.session_core.specs.Answer.{show_in, turned_in};
ghost use Rattle.story_watch.specs.Watch.{shows_from};

use gate_journal::Command;
use line_words::push_show;
use session_core::{turned, world_of};
use std::alloc::{AllocError, Global};
use story_run::{Story, World};
use story_text::Bytes;

/// The most bytes of a show but for its lines.
const HEAD: usize = 29;

/// What the world shows.
fn show_in<'a>(world: &'a Option<World>) -> &'a [u8]
    ensures { result.now ≡ show_in world.now }
{
    match world {
        Some(world) => world.last(),
        None => &[],
    }
}

/// The world after what a command gives the story.
fn turned_in<'i>(
    alloc: Global,
    world: Option<World<'i>>,
    command: &Command,
) -> Result<Option<World<'i>>, AllocError>
    ensures { IfOk result (λ after. after ≡ turned_in world.entry (input_of command.now)) }
{
    match world {
        Some(world) => {
            let after = turned(alloc, world, command)?;
            Ok(Some(after))
        }
        None => Ok(None),
    }
}

/// Puts a show of this number behind the text, which takes no more room than it needs.
fn push(
    text: &mut Vec<u8>,
    alloc: Global,
    s: u32,
    n: u32,
    world: &Option<World>,
) -> Result<(), AllocError>
    ensures { OnOk result (text.new.items ≡ text.old.items ++ print_show s n (show_in world.now)) }
{
    let body = show_in(world);
    text.reserve_exact(body.len().saturating_add(HEAD))?;
    push_show(text, alloc, s, n, body)
}

/// The shows of the game from one number to another, as they are written. Each turn up to the last
/// is played once.
#[tactic(auto, using(crate::proofs::ShowLemmas::first_show, crate::proofs::ShowLemmas::next_show, crate::proofs::ShowLemmas::next_world))]
pub fn shows(
    alloc: Global,
    stories: &[Story],
    game: &[Command],
    s: u32,
    from: u32,
    to: u32,
) -> Result<Bytes, AllocError>
    requires order { from ≤ to }
    requires there { to < length game.now }
    requires within { length game.now ≤ 8192 }
    ensures { IfOk result (λ text. text
        ≡ shows_from stories.now game.now s from (to + 1 - from)) }
{
    let mut text = Vec::new(alloc);
    let mut world = world_of(alloc, stories, &game[..from as usize + 1])?;
    push(&mut text, alloc, s, from, &world)?;
    for n in from + 1..to + 1 {
        world = turned_in(alloc, world, &game[n as usize])?;
        push(&mut text, alloc, s, n, &world)?;
    }
    Ok(Bytes::of(text))
}
