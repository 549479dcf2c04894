//! The lines that `run` reads (own).

ghost use Rattle.std.specs.Prelude.{◌≡◌, IfOk, IfErr, Some};
ghost use Rattle.line_words.specs.Reading.{GivesLineReading, whole, at_end};
ghost use Rattle.line_words.specs.Play.{line_at, window_and_code_at, screen_at, line_play};
ghost use Rattle.line_words.specs.Play.{char_play, file_play, size_play};
ghost use Rattle.line_words.specs.Play.{spelled_play, without_cr, play_of, RefusesLine};

use crate::fault::LineFault;
use crate::field::{after, at_end, code_at, terminator_at, text_at, u8_at, u32_at};
use std::alloc::Global;
use story_text::{Input, Text};

/// The most bytes of a line without its LF.
pub const MAX_LINE: usize = 2047;

/// The fields of LINE: a window, a text and a terminator key.
#[tactic(auto, unfolding(crate::specs::Play::line_at))]
pub fn line_at(alloc: Global, rest: &[u8]) -> Result<((u32, Text, u32), &[u8]), LineFault>
    ensures { GivesLineReading (λ x. ((x.0.0, (x.0.1, x.0.2)), x.1.now)) result (line_at rest.now) }
{
    let (win, rest) = u32_at(0, rest)?;
    let (text, rest) = text_at(alloc, rest)?;
    let (key, rest) = terminator_at(rest)?;
    Ok(((win, text, key), rest))
}

/// The fields of CHAR: a window and a code.
#[tactic(auto, unfolding(crate::specs::Play::window_and_code_at))]
pub fn char_at(rest: &[u8]) -> Result<((u32, u32), &[u8]), LineFault>
    ensures { GivesLineReading (λ x. ((x.0.0, x.0.1), x.1.now)) result
        (window_and_code_at rest.now) }
{
    let (win, rest) = u32_at(0, rest)?;
    let (code, rest) = code_at(rest)?;
    Ok(((win, code), rest))
}

/// The fields of SIZE: the columns and rows of a screen.
#[tactic(auto, unfolding(crate::specs::Play::screen_at))]
pub fn screen_at(rest: &[u8]) -> Result<((u8, u8), &[u8]), LineFault>
    ensures { GivesLineReading (λ x. ((x.0.0, x.0.1), x.1.now)) result (screen_at rest.now) }
{
    let (cols, rest) = u8_at(1, rest)?;
    let (rows, rest) = u8_at(1, rest)?;
    Ok(((cols, rows), rest))
}

fn line_play(alloc: Global, rest: &[u8]) -> Result<Input, LineFault>
    ensures { GivesLineReading (λ x. x) result (line_play rest.now) }
{
    let ((win, text, key), rest) = line_at(alloc, rest)?;
    at_end(rest)?;
    Ok(Input::Line { win, text, key })
}

fn char_play(rest: &[u8]) -> Result<Input, LineFault>
    ensures { GivesLineReading (λ x. x) result (char_play rest.now) }
{
    let ((win, code), rest) = char_at(rest)?;
    at_end(rest)?;
    Ok(Input::Char { win, code })
}

fn file_play(alloc: Global, rest: &[u8]) -> Result<Input, LineFault>
    ensures { GivesLineReading (λ x. x) result (file_play rest.now) }
{
    let (name, rest) = text_at(alloc, rest)?;
    at_end(rest)?;
    Ok(Input::File { name })
}

fn size_play(rest: &[u8]) -> Result<Input, LineFault>
    ensures { GivesLineReading (λ x. x) result (size_play rest.now) }
{
    let ((cols, rows), rest) = screen_at(rest)?;
    at_end(rest)?;
    Ok(Input::Size { cols, rows })
}

#[tactic(auto, unfolding(crate::specs::Play::spelled_play))]
fn spelled_play(alloc: Global, line: &[u8]) -> Result<Input, LineFault>
    ensures { GivesLineReading (λ x. x) result (spelled_play line.now) }
{
    if let Some(rest) = after(b"LINE", line) {
        return line_play(alloc, rest);
    }
    if let Some(rest) = after(b"CHAR", line) {
        return char_play(rest);
    }
    if let Some(rest) = after(b"FILE", line) {
        return file_play(alloc, rest);
    }
    if let Some(rest) = after(b"SIZE", line) {
        return size_play(rest);
    }
    Err(LineFault::BadLine)
}

/// The line without the CR that may end it.
#[tactic(auto, unfolding(crate::specs::Play::without_cr))]
pub fn without_cr(line: &[u8]) -> &[u8]
    ensures { result.now ≡ without_cr line.now }
{
    if !line.is_empty() && line[line.len() - 1] == b'\r' {
        let (front, _) = line.split_at(line.len() - 1);
        return front;
    }
    line
}

/// The input that the line spells: `LINE win =text` or `LINE win =text key`, with key 0 where none is
/// named, `CHAR win code`, `FILE =name` or `SIZE cols rows`. The line comes without its LF; a CR
/// that ends it is counted and then dropped. `LongLine` exactly where the line has more than 2,047 bytes, and else `BadLine`
/// exactly where it spells no input; `NoMemory` where memory runs out.
pub fn read_play(alloc: Global, line: &[u8]) -> Result<Input, LineFault>
    ensures only { IfOk result (λ play. play_of line.now ≡ Some play) }
    ensures exact { IfErr result (RefusesLine line.now (play_of line.now)) }
{
    if line.len() > MAX_LINE {
        return Err(LineFault::LongLine);
    }
    spelled_play(alloc, without_cr(line))
}
