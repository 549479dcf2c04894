//! How `run` answers the lines of its player.
ghost use Rattle.std.specs.Prelude.{◌≡◌, ◌<◌, OnOk, IfOk, IfErr, true, Some};
ghost use Rattle.std.specs.Option.{option_map};
ghost use Rattle.story_run.specs.Solo.{is_wanted, world_after_input};
ghost use Rattle.line_talk.specs.Streams.{Wrote};
ghost use Rattle.line_talk.specs.Writing.{Stopped};
ghost use Rattle.line_talk.specs.Lines.{IsHeard};
ghost use Rattle.host_top.specs.RunText.{show_text, input_next, input_reply, line_next, line_reply};

use line_talk::{Answers, Sink, Stop, write_all};
use line_words::{LineFault, read_play};
use std::alloc::{AllocError, Global};
use std::marker::{Brand, Model};
use std::sync::ledger::{Blank, Ledger};
use story_run::{Steps, World};
use story_text::Input;

/// Writes a show and the line that ends it.
pub fn say<K: Sink>(output: &mut K, world: &World<'_>) -> Result<(), Stop>
    ensures ok { OnOk result (Wrote (K.sink output.old) (K.sink output.new) (show_text world.now)) }
    ensures err { IfErr result (λ cause.
        Stopped (K.sink output.old) (K.sink output.new) (show_text world.now) cause) }
    ensures beside { K.beside output.new ≡ K.beside output.old }
{
    write_all(output, world.last())?;
    write_all(output, b".\n")
}

/// Plays a turn, whose steps are counted in a new ledger.
fn turn_counted<'i, L: Ledger>(
    alloc: Global,
    world: World<'i>,
    input: &Input,
    blank: Blank,
) -> Result<World<'i>, AllocError>
    requires name { blank.name ≡ L.name }
    requires parts { blank.parts ≡ L.parts }
    requires some { 0 < blank.parts }
    requires wanted { is_wanted world input.now ≡ true }
    ensures { IfOk result (λ now. now ≡ world_after_input world.entry input.now) }
{
    let mut steps = Steps::<L>::new(blank);
    world.turn(alloc, input, &mut steps)
}

/// Plays a turn whose steps nobody counts.
fn turn<'i>(alloc: Global, world: World<'i>, input: &Input) -> Result<World<'i>, AllocError>
    requires { is_wanted world input.now ≡ true }
    ensures { IfOk result (λ now. now ≡ world_after_input world.entry input.now) }
{
    turn_counted::<Brand>(alloc, world, input, Blank::new(1))
}

/// Writes the reply to an input.
fn reply_to<'i, K: Sink>(
    alloc: Global,
    world: World<'i>,
    input: &Input,
    output: &mut K,
) -> Result<World<'i>, Stop>
    ensures next { IfOk result (λ now. now ≡ input_next world.entry input.now) }
    ensures reply { OnOk result (Wrote (K.sink output.old) (K.sink output.new)
        (input_reply world.entry input.now)) }
    ensures err { IfErr result (λ cause. Stopped (K.sink output.old) (K.sink output.new)
        (input_reply world.entry input.now) cause) }
    ensures beside { K.beside output.new ≡ K.beside output.old }
{
    if !world.wants(input) {
        write_all(output, b"NO 8\n")?;
        return Ok(world);
    }
    let world = turn(alloc, world, input)?;
    say(output, &world)?;
    Ok(world)
}

/// Writes the reply to a line, or to one that was dropped, and plays its turn.
fn answer_line<'i, K: Sink>(
    alloc: Global,
    world: World<'i>,
    line: Option<&[u8]>,
    output: &mut K,
) -> Result<World<'i>, Stop>
    requires { IsHeard (option_map (λ l. l.now) line) }
    ensures next { IfOk result (λ now.
        now ≡ line_next world.entry (option_map (λ l. l.now) line.entry)) }
    ensures reply { OnOk result (Wrote (K.sink output.old) (K.sink output.new)
        (line_reply world.entry (option_map (λ l. l.now) line.entry))) }
    ensures err { IfErr result (λ cause. Stopped (K.sink output.old) (K.sink output.new)
        (line_reply world.entry (option_map (λ l. l.now) line.entry)) cause) }
    ensures beside { K.beside output.new ≡ K.beside output.old }
{
    let Some(line) = line else {
        write_all(output, b"NO 14\n")?;
        return Ok(world);
    };
    match read_play(alloc, line) {
        Ok(input) => reply_to(alloc, world, &input, output),
        Err(LineFault::BadLine) => {
            write_all(output, b"NO 1\n")?;
            Ok(world)
        }
        Err(LineFault::LongLine) => unreachable!("a line that is heard isn't too long"),
        Err(LineFault::NoMemory) => Err(Stop::Memory),
    }
}

/// The one who plays a story. Its world is gone once memory was wanted or the output failed.
#[derive(Drop)]
pub struct Player<'i> {
    world: Option<World<'i>>,
}

impl<'i> Model for Player<'i> {
    ghost use Rattle.std.specs.Prelude.{Option};
    ghost use Rattle.story_run.specs.World.{WorldState};

    ghost Value = { Option WorldState };

    ghost view = { λ player. player.world };
}

impl<'i> Player<'i> {
    pub fn new(world: World<'i>) -> Player<'i>
        ensures { result ≡ Some world.entry }
    {
        Player { world: Some(world) }
    }
}

impl<'i> Answers for Player<'i> {
    ghost use Rattle.host_top.specs.Plain.{Plain, PlainReply, answering_held, is_over_held};
    ghost use Rattle.host_top.specs.RunText.{solo};
    ghost use Rattle.std.specs.Prelude.{Option};
    ghost use Rattle.story_run.specs.World.{WorldState};

    ghost State = { Option WorldState };

    ghost state = { λ player. player };

    ghost turn = { Plain (answering_held solo) };

    ghost cut = { PlainReply (answering_held solo) };

    ghost over = { is_over_held solo };

    ghost invariant = { λ _. Unit {0} };

    ghost ready = { λ _. Unit {0} };

    ghost Lent = { Unit {0} };

    ghost lent = { λ _. tt };

    fn is_over(&self) -> bool {
        match &self.world {
            Some(world) => world.is_over(),
            None => true,
        }
    }

    fn make_room(&mut self, alloc: Global) -> Result<(), AllocError> {
        let _ = alloc;
        Ok(())
    }

    fn answer<K: Sink>(
        &mut self,
        alloc: Global,
        line: Option<&[u8]>,
        output: &mut K,
    ) -> Result<(), Stop> {
        let Some(world) = self.world.take() else {
            unreachable!("a story that is over answers no line");
        };
        match answer_line(alloc, world, line, output) {
            Ok(world) => {
                self.world = Some(world);
                Ok(())
            }
            Err(stop) => Err(stop),
        }
    }
}
