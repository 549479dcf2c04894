//! What a desk says of a request (own).

ghost use Rattle.std.specs.Prelude.{◌≡◌, ◌≤◌, ◌&&◌, is_none, length};
ghost use Rattle.std.specs.Option.{option_copied};
ghost use Rattle.session_core.specs.History.{game_of};
ghost use Rattle.session_desk.specs.Verdict.{needs_world, verdict_in};

use gate_journal::Command;
use line_words::{No, Request};
use session_core::{is_fresh, is_in_use, plain_refusal, refusal_in};
use std::alloc::Global;
use story_run::{Story, World};

/// What a request will be answered.
#[derive(Clone, Copy, Debug, PartialEq, Eq)]
pub enum Verdict {
    /// It is refused.
    Refuse(No),
    /// It gets the last show, and nothing is accepted.
    Again,
    /// It makes the session accept a command.
    Fresh,
    /// The answer needs the world, and it isn't held.
    Cold,
}

/// The answer needs the session's world: no check without the world refuses the request, and it is
/// one to the story of a session in use.
fn needs_world(stories: &[Story], game: &[Command], request: &Request) -> bool
    requires { length game.now ≤ 8192 }
    ensures { result ≡ needs_world stories.now game.now request.now }
{
    plain_refusal(stories, game, request).is_none()
        && is_in_use(game)
        && !matches!(request, Request::Close { .. })
}

/// The answer needs the world, and it isn't held.
#[tactic(auto, using(crate::proofs::VerdictLemmas::none_copied))]
fn lacks_world(stories: &[Story], game: &[Command], now: Option<&World>, request: &Request) -> bool
    requires { length game.now ≤ 8192 }
    ensures { result ≡ (needs_world stories.now game.now request.now
        && is_none (option_copied now.entry)) }
{
    now.is_none() && needs_world(stories, game, request)
}

/// What is said of a request to a session with these commands, whose last game this is, by the
/// world that is held of it. It takes no memory.
pub(crate) fn verdict_of(
    alloc: Global,
    stories: &[Story],
    commands: &[Command],
    game: &[Command],
    now: Option<&World>,
    request: &Request,
) -> Verdict
    requires game { game.now ≡ game_of commands.now }
    requires within { length game.now ≤ 8192 }
    ensures { result ≡ verdict_in stories.now commands.now (option_copied now.entry) request.now }
{
    if lacks_world(stories, game, now, request) {
        return Verdict::Cold;
    }
    if let Some(why) = refusal_in(alloc, stories, commands, game, now, request) {
        return Verdict::Refuse(why);
    }
    if !is_fresh(game, request) {
        return Verdict::Again;
    }
    Verdict::Fresh
}
