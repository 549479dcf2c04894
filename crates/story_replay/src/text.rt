//! The text of a game (own: docs/FORMATS.md, "Transcripts").

ghost use Rattle.std.specs.Prelude.{◌≡◌, ◌+◌, ◌<◌, ◌++◌, length, take, IfOk, OnOk};
ghost use Rattle.line_words.specs.Reply.{print_show};
ghost use Rattle.session_core.specs.Answer.{show_while, turned_in};
ghost use Rattle.session_core.specs.History.{input_of, world_of};
ghost use Rattle.story_replay.specs.Text.{game_body, game_line, game_text, shows_below};

use crate::game::Game;
use gate_journal::Command;
use line_words::{No, Reply, write_reply};
use session_core::{is_in_use, is_other_story, turn_on, world_of};
use std::alloc::{AllocError, Global};
use std::marker::Brand;
use std::sync::ledger::{Blank, Ledger};
use story_run::{Steps, Story, World};
use story_text::Bytes;

/// The world after what a command gives the story, if there is one. A turn is one step.
fn turned_in<'i, L: Ledger>(
    alloc: Global,
    world: Option<World<'i>>,
    command: &Command,
    steps: &mut Steps<L>,
) -> Result<Option<World<'i>>, AllocError>
    ensures { IfOk result (λ after. after ≡ turned_in world.entry (input_of command.now)) }
{
    match world {
        Some(world) => {
            let after = turn_on(alloc, world, command, steps)?;
            Ok(Some(after))
        }
        None => Ok(None),
    }
}

/// The world of a game with its command of this number, counted from 0, by that of the game before.
fn world_with<'i, L: Ledger>(
    alloc: Global,
    stories: &[Story<'i>],
    game: &[Command],
    number: usize,
    before: Option<World<'i>>,
    steps: &mut Steps<L>,
) -> Result<Option<World<'i>>, AllocError>
    requires within { number < length game.now }
    requires before { before ≡ world_of stories.now (take number game.now) }
    ensures { IfOk result (λ world. world ≡ world_of stories.now (take (number + 1) game.now)) }
{
    if number == 0 {
        return world_of(alloc, stories, &game[..number + 1]);
    }
    turned_in(alloc, before, &game[number], steps)
}

/// Adds a show, as a reply is written.
fn push_show(
    alloc: Global,
    session: u8,
    number: usize,
    body: &[u8],
    text: &mut Vec<u8>,
) -> Result<(), AllocError>
    ensures { OnOk result (text.new.items
        ≡ text.old.items ++ print_show session number body.now) }
{
    let line = format!(in alloc; "SHOW {session} {number}\n")?;
    text.extend_from_slice(line.as_bytes())?;
    text.extend_from_slice(body)?;
    text.extend_from_slice(b".\n")
}

/// The lines that a session shows: those of its world while it is in use.
fn lines_of<'w>(in_use: bool, world: &'w Option<World<'_>>) -> &'w [u8]
    ensures { result.now ≡ show_while in_use world.now }
{
    if !in_use {
        return b"E closed\n";
    }
    match world {
        Some(world) => world.last(),
        None => &[],
    }
}

/// Adds the shows of a game. Each turn is one step.
fn push_shows<'i, L: Ledger>(
    alloc: Global,
    stories: &[Story<'i>],
    game: &Game,
    steps: &mut Steps<L>,
    text: &mut Vec<u8>,
) -> Result<(), AllocError>
    ensures { OnOk result (text.new.items
        ≡ text.old.items ++ shows_below stories.now game.now (length game.now.commands)) }
{
    let commands = game.commands.as_slice();
    let mut world = None;
    for number in 0..commands.len() {
        world = world_with(alloc, stories, commands, number, world, steps)?;
        let body = lines_of(is_in_use(&commands[..number + 1]), &world);
        push_show(alloc, game.session, number, body, text)?;
    }
    Ok(())
}

/// The same with a count of its own, which begins with this blank.
fn push_shows_uncounted<'i, L: Ledger>(
    alloc: Global,
    stories: &[Story<'i>],
    game: &Game,
    blank: Blank,
    text: &mut Vec<u8>,
) -> Result<(), AllocError>
    requires name { blank.name ≡ L.name }
    requires parts { blank.parts ≡ L.parts }
    requires one { L.parts ≡ 1 }
    ensures { OnOk result (text.new.items
        ≡ text.old.items ++ shows_below stories.now game.now (length game.now.commands)) }
{
    let mut steps = Steps::<L>::new(blank);
    push_shows(alloc, stories, game, &mut steps, text)
}

/// The line of a game.
fn game_line(alloc: Global, game: &Game) -> Result<Vec<u8>, AllocError>
    ensures { IfOk result (λ line. line.items ≡ game_line game.now) }
{
    let session = game.session;
    let place = game.place;
    let line = format!(in alloc; "GAME {session} {place}\n")?;
    Ok(line.into_bytes())
}

/// Adds what stands behind the line of a game.
#[tactic(auto, unfolding(crate::specs::Text::game_body))]
fn push_body(
    alloc: Global,
    stories: &[Story<'_>],
    game: &Game,
    text: &mut Vec<u8>,
) -> Result<(), AllocError>
    ensures { OnOk result (text.new.items ≡ text.old.items ++ game_body stories.now game.now) }
{
    if is_other_story(stories, game.commands.as_slice()) {
        let line = write_reply(alloc, &Reply::No(No::Changed))?;
        return text.extend_from_slice(&line);
    }
    push_shows_uncounted::<Brand>(alloc, stories, game, Blank::new(1), text)
}

/// The text of a game.
#[tactic(auto, unfolding(crate::specs::Text::game_text))]
pub fn game_text(alloc: Global, stories: &[Story<'_>], game: &Game) -> Result<Bytes, AllocError>
    ensures { IfOk result (λ text. text ≡ game_text stories.now game.now) }
{
    let mut text = game_line(alloc, game)?;
    push_body(alloc, stories, game, &mut text)?;
    Ok(Bytes::of(text))
}
