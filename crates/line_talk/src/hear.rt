//! The lines that end in a piece of input.
ghost use Rattle.std.specs.Prelude.{◌≡◌, ◌<◌, ◌^◌, false, Ok, IfOk, IfErr};
ghost use Rattle.line_talk.specs.Hears.{LeadsTo, StopsWithin};

use crate::answers::Answers;
use crate::line_buffer::LineBuffer;
use crate::sink::{Sink, Stop};
use std::alloc::Global;

/// The most lines of a connection.
const MOST_LINES: u32 = 1 << 20;

/// What a piece of input leads to.
#[derive(Clone, Copy, Debug, PartialEq, Eq)]
pub enum Heard {
    /// More lines are answered.
    More,
    /// No further line is answered.
    Over,
    /// The connection's last line was answered.
    Limit,
}

/// Answers the lines that end in a piece of input, and makes room for the next.
pub fn hear<A: Answers, K: Sink>(
    alloc: Global,
    speaker: &mut A,
    line: &mut LineBuffer,
    count: &mut u32,
    piece: &[u8],
    output: &mut K,
) -> Result<Heard, Stop>
    requires going { A.over (A.state speaker.old) ≡ false }
    requires invariant { A.invariant speaker.old }
    requires ready { A.ready speaker.old }
    requires room { count.old < 2 ^ 20 }
    ensures leads { IfOk result (λ heard. LeadsTo A.turn A.over (A.state speaker.old) line.old
        count.old piece.now heard (A.state speaker.new) line.new count.new
        (K.sink output.old) (K.sink output.new)) }
    ensures err { IfErr result (λ cause. StopsWithin A.turn A.cut A.over (A.state speaker.old)
        line.old count.old piece.now (A.state speaker.new)
        (K.sink output.old) (K.sink output.new) cause) }
    ensures invariant { A.invariant speaker.new }
    ensures ready { result ≡ Ok Heard.More → A.ready speaker.new }
    ensures lent { A.lent speaker.new ≡ A.lent speaker.old }
    ensures beside { K.beside output.new ≡ K.beside output.old }
{
    for byte in piece {
        if *byte != b'\n' {
            match line.push(*byte) {
                Ok(()) => continue,
                Err(_) => return Err(Stop::Memory),
            }
        }
        match speaker.answer(alloc, line.line(), output) {
            Ok(()) => {}
            Err(stop) => return Err(stop),
        }
        line.clear();
        *count += 1;
        if speaker.is_over() {
            return Ok(Heard::Over);
        }
        if *count == MOST_LINES {
            return Ok(Heard::Limit);
        }
        let Ok(()) = speaker.make_room(alloc) else {
            return Err(Stop::Memory);
        };
    }
    Ok(Heard::More)
}
