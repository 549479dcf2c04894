//! A world: a story between two turns.

ghost use Rattle.std.specs.Prelude.{◌≡◌, ◌+◌, true, IfOk};
ghost use Rattle.story_run.specs.Solo.{is_over, is_wanted, opening, rested, glk_settled};
ghost use Rattle.story_run.specs.Solo.{last_lines, world_after_input};
ghost use Rattle.story_run.specs.World.{ComesTo, IsStageOf, IsValidWorld, world_of_held};

use crate::ends::lines_of;
use crate::stage::Stage;
use crate::turn::{begin, resume};
use crate::{Setup, Steps, Story};
use glk_dispatch::Glk;
use glulx_image::Image;
use std::alloc::{AllocError, Global};
use std::marker::Model;
use std::sync::ledger::Ledger;
use story_text::{Bytes, Input};

/// A story that waits for its player or is over, with the show of its last turn, seen by contracts
/// as a record. Where it waits its machine is fit and lies over its image; its Glk state is valid,
/// and waits with what the story waits for.
#[derive(Drop)]
pub struct World<'i> {
    held: Box<Held<'i>>,
}

/// What a world holds. It stands in a box, so that whoever lets a world go has one thing to drop.
#[derive(Drop)]
pub(crate) struct Held<'i> {
    pub(crate) image: Image<'i>,
    pub(crate) seed: u64,
    pub(crate) budget: u64,
    pub(crate) glk: Glk,
    pub(crate) stage: Stage<'i>,
    pub(crate) last: Bytes,
}

impl<'i> Model for World<'i> {
    ghost use Rattle.story_run.specs.World.{IsValidWorld, WorldState, world_of_held};

    ghost Value = { WorldState };

    ghost view = { λ w. world_of_held w.held.value };

    ghost invariant = { λ w. IsValidWorld (world_of_held w.held.value) };
}

impl<'i> World<'i> {
    /// Begins the story and runs its opening turn. An error is want of memory.
    #[tactic(auto, unfolding(crate::specs::Solo::opening))]
    pub fn start(alloc: Global, story: &Story<'i>, setup: Setup) -> Result<World<'i>, AllocError>
        ensures value { IfOk result (λ world. world ≡ opening story.now.image setup) }
    {
        let mut glk = Glk::new(alloc, setup.cols, setup.rows)?;
        let stage = begin(alloc, &mut glk, &story.image, setup.seed, setup.budget)?;
        let image = story.image.lend();
        rest(alloc, image, setup.seed, setup.budget, glk, stage)
    }

    /// Whether the story waits for this input: what a window asks for or a size of the screen, or at
    /// a prompt the name of a file.
    #[tactic(auto, unfolding(crate::specs::Solo::is_wanted))]
    pub fn wants(&self, input: &Input) -> bool
        ensures value { result ≡ is_wanted self.now input.now }
    {
        match &self.held.stage {
            Stage::AtSelect(_) => self.held.glk.requests.wants(input),
            Stage::AtPrompt(_) => matches!(input, Input::File { .. }),
            Stage::Quit | Stage::Fault(_) => false,
        }
    }

    /// Gives the story an input that it waits for and runs the turn, which is one step. An error is
    /// want of memory; the world is then gone.
    #[tactic(auto, unfolding(crate::specs::Solo::is_wanted, crate::specs::Solo::world_after_input))]
    pub fn turn<L: Ledger>(
        self,
        alloc: Global,
        input: &Input,
        steps: &mut Steps<L>,
    ) -> Result<World<'i>, AllocError>
        requires { is_wanted self input.now ≡ true }
        ensures value { IfOk result (λ world. world ≡ world_after_input self.entry input.now) }
        ensures cost { steps.new ≡ steps.old + 1 }
    {
        steps.tick();
        let Held {
            image,
            seed,
            budget,
            mut glk,
            stage,
            last,
        } = Box::into_inner(self.held);
        match stage {
            Stage::AtSelect(machine) | Stage::AtPrompt(machine) => {
                let stage = resume(alloc, &mut glk, &image, machine, input, budget)?;
                rest(alloc, image, seed, budget, glk, stage)
            }
            stage => hold(
                alloc,
                Held {
                    image,
                    seed,
                    budget,
                    glk,
                    stage,
                    last,
                },
            ),
        }
    }

    /// Whether the story is over: it quit or met a fault. The world is valid then and before.
    #[tactic(auto, unfolding(crate::specs::Solo::is_over))]
    pub fn is_over(&self) -> bool
        ensures value { result ≡ is_over self.now }
        ensures valid { IsValidWorld self.now }
    {
        self.held.stage.is_at_end()
    }

    /// The lines of the last turn's show, each with its newline.
    #[tactic(auto, unfolding(crate::specs::Solo::last_lines))]
    pub fn last(&self) -> &[u8]
        ensures value { result.now ≡ last_lines self.now }
    {
        self.held.last.as_slice()
    }

    /// The seed of its random words.
    pub fn seed(&self) -> u64
        ensures value { result ≡ self.now.seed }
    {
        self.held.seed
    }

    /// The budget of each of its turns in ticks.
    pub fn budget(&self) -> u64
        ensures value { result ≡ self.now.budget }
    {
        self.held.budget
    }

    /// Its image.
    pub fn image(&self) -> &Image<'i>
        ensures value { result.now ≡ self.now.image }
    {
        &self.held.image
    }

    /// Its Glk state.
    pub fn glk(&self) -> &Glk
        ensures value { result.now ≡ self.now.glk }
    {
        &self.held.glk
    }

    /// Where it waits, or how it ended. The world is valid.
    pub fn stage(&self) -> &Stage<'i>
        ensures value { result.now ≡ self.now.stage }
        ensures valid { IsValidWorld self.now }
    {
        &self.held.stage
    }
}

// A story that is over waits with nothing.
fn settle(glk: &mut Glk, stage: &Stage<'_>)
    ensures { glk.new ≡ glk_settled stage.now glk.old }
{
    if stage.is_at_end() {
        glk.rest();
    }
}

// The world after a turn that came to rest: its show is made, and then the next may begin.
fn rest<'i>(
    alloc: Global,
    image: Image<'i>,
    seed: u64,
    budget: u64,
    mut glk: Glk,
    stage: Stage<'i>,
) -> Result<World<'i>, AllocError>
    requires machine { IsStageOf image seed stage }
    requires glk { ComesTo stage glk }
    ensures { IfOk result (λ world. world ≡ rested image.entry seed budget (glk, stage.entry)) }
{
    let last = Bytes::of(lines_of(alloc, &glk, &stage)?);
    settle(&mut glk, &stage);
    glk.begin_turn();
    hold(
        alloc,
        Held {
            image,
            seed,
            budget,
            glk,
            stage,
            last,
        },
    )
}

// The world that holds this.
pub(crate) fn hold<'i>(alloc: Global, held: Held<'i>) -> Result<World<'i>, AllocError>
    requires { IsValidWorld (world_of_held held) }
    ensures { IfOk result (λ world. world ≡ world_of_held held.entry) }
{
    Ok(World {
        held: Box::new(alloc, held)?,
    })
}
