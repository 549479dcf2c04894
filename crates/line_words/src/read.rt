//! Reading request lines (own).

ghost use Rattle.std.specs.Prelude.{◌≡◌, IfOk, IfErr, Some};
ghost use Rattle.line_words.specs.Reading.{GivesLineReading};
ghost use Rattle.line_words.specs.Play.{RefusesLine};
ghost use Rattle.line_words.specs.Request.{session_at, numbered_at, setup_fields_at, open_of};
ghost use Rattle.line_words.specs.Request.{line_request, char_request, file_request, size_request};
ghost use Rattle.line_words.specs.Request.{last_request, close_of, watched_at, watch_of};
ghost use Rattle.line_words.specs.Request.{spelled_request, request_of};

use crate::fault::LineFault;
use crate::field::{after, at_end, key_at, number_at, text_at, u32_at, watch_word_at};
use crate::key::Key;
use crate::play::{MAX_LINE, char_at, line_at, screen_at, without_cr};
use crate::request::Request;
use std::alloc::Global;

/// The ticks of a turn, where the host sets none.
const BUDGET: u64 = 50_000_000;

#[tactic(auto, unfolding(crate::specs::Request::session_at))]
fn session_at(alloc: Global, rest: &[u8]) -> Result<((u32, Key), &[u8]), LineFault>
    ensures { GivesLineReading (λ x. ((x.0.0, x.0.1), x.1.now)) result (session_at rest.now) }
{
    let (s, rest) = u32_at(0, rest)?;
    let (key, rest) = key_at(alloc, rest)?;
    Ok(((s, key), rest))
}

#[tactic(auto, unfolding(crate::specs::Request::numbered_at))]
fn numbered_at(alloc: Global, rest: &[u8]) -> Result<((u32, Key, u32), &[u8]), LineFault>
    ensures { GivesLineReading (λ x. ((x.0.0, (x.0.1, x.0.2)), x.1.now)) result
        (numbered_at rest.now) }
{
    let (s, rest) = u32_at(0, rest)?;
    let (key, rest) = key_at(alloc, rest)?;
    let (n, rest) = u32_at(1, rest)?;
    Ok(((s, key, n), rest))
}

/// The fields of OPEN behind the key.
#[derive(Clone, Copy)]
struct Setup {
    story: u32,
    seed: u64,
    cols: u8,
    rows: u8,
}

#[tactic(auto, unfolding(crate::specs::Request::setup_fields_at))]
fn setup_at(rest: &[u8]) -> Result<(Setup, &[u8]), LineFault>
    ensures { GivesLineReading (λ x. ((x.0.story, (x.0.seed, (x.0.cols, x.0.rows))), x.1.now))
        result
        (setup_fields_at rest.now) }
{
    let (story, rest) = number_at(0, 65535, rest)?;
    let (seed, rest) = number_at(0, u64::MAX, rest)?;
    let ((cols, rows), rest) = screen_at(rest)?;
    Ok((
        Setup {
            story: story as u32,
            seed,
            cols,
            rows,
        },
        rest,
    ))
}

#[tactic(auto, unfolding(crate::specs::Request::open_of))]
fn open_of(alloc: Global, rest: &[u8]) -> Result<Request, LineFault>
    ensures { GivesLineReading (λ x. x) result (open_of rest.now) }
{
    let ((s, key), rest) = session_at(alloc, rest)?;
    let (setup, rest) = setup_at(rest)?;
    at_end(rest)?;
    Ok(Request::Open {
        s,
        key,
        story: setup.story,
        seed: setup.seed,
        cols: setup.cols,
        rows: setup.rows,
        budget: BUDGET,
    })
}

#[tactic(auto, unfolding(crate::specs::Request::line_request))]
fn line_of(alloc: Global, rest: &[u8]) -> Result<Request, LineFault>
    ensures { GivesLineReading (λ x. x) result (line_request rest.now) }
{
    let ((s, key, n), rest) = numbered_at(alloc, rest)?;
    let ((win, text, term), rest) = line_at(alloc, rest)?;
    at_end(rest)?;
    Ok(Request::Line {
        s,
        key,
        n,
        win,
        text,
        term,
    })
}

#[tactic(auto, unfolding(crate::specs::Request::char_request))]
fn char_of(alloc: Global, rest: &[u8]) -> Result<Request, LineFault>
    ensures { GivesLineReading (λ x. x) result (char_request rest.now) }
{
    let ((s, key, n), rest) = numbered_at(alloc, rest)?;
    let ((win, code), rest) = char_at(rest)?;
    at_end(rest)?;
    Ok(Request::Char {
        s,
        key,
        n,
        win,
        code,
    })
}

#[tactic(auto, unfolding(crate::specs::Request::file_request))]
fn file_of(alloc: Global, rest: &[u8]) -> Result<Request, LineFault>
    ensures { GivesLineReading (λ x. x) result (file_request rest.now) }
{
    let ((s, key, n), rest) = numbered_at(alloc, rest)?;
    let (name, rest) = text_at(alloc, rest)?;
    at_end(rest)?;
    Ok(Request::File { s, key, n, name })
}

#[tactic(auto, unfolding(crate::specs::Request::size_request))]
fn size_of(alloc: Global, rest: &[u8]) -> Result<Request, LineFault>
    ensures { GivesLineReading (λ x. x) result (size_request rest.now) }
{
    let ((s, key, n), rest) = numbered_at(alloc, rest)?;
    let ((cols, rows), rest) = screen_at(rest)?;
    at_end(rest)?;
    Ok(Request::Size {
        s,
        key,
        n,
        cols,
        rows,
    })
}

#[tactic(auto, unfolding(crate::specs::Request::last_request))]
fn last_of(alloc: Global, rest: &[u8]) -> Result<Request, LineFault>
    ensures { GivesLineReading (λ x. x) result (last_request rest.now) }
{
    let ((s, key), rest) = session_at(alloc, rest)?;
    at_end(rest)?;
    Ok(Request::Last { s, key })
}

#[tactic(auto, unfolding(crate::specs::Request::close_of))]
fn close_of(alloc: Global, rest: &[u8]) -> Result<Request, LineFault>
    ensures { GivesLineReading (λ x. x) result (close_of rest.now) }
{
    let ((s, key, n), rest) = numbered_at(alloc, rest)?;
    at_end(rest)?;
    Ok(Request::Close { s, key, n })
}

#[tactic(auto, unfolding(crate::specs::Request::watched_at))]
fn watched_at(rest: &[u8]) -> Result<((u32, [u8; 16], u32), &[u8]), LineFault>
    ensures { GivesLineReading (λ x. ((x.0.0, (x.0.1, x.0.2)), x.1.now)) result
        (watched_at rest.now) }
{
    let (s, rest) = u32_at(0, rest)?;
    let (word, rest) = watch_word_at(rest)?;
    let (from, rest) = u32_at(0, rest)?;
    Ok(((s, word, from), rest))
}

#[tactic(auto, unfolding(crate::specs::Request::watch_of))]
fn watch_of(rest: &[u8]) -> Result<Request, LineFault>
    ensures { GivesLineReading (λ x. x) result (watch_of rest.now) }
{
    let ((s, word, from), rest) = watched_at(rest)?;
    at_end(rest)?;
    Ok(Request::Watch { s, word, from })
}

#[tactic(auto, unfolding(crate::specs::Request::spelled_request))]
fn spelled_request(alloc: Global, line: &[u8]) -> Result<Request, LineFault>
    ensures { GivesLineReading (λ x. x) result (spelled_request line.now) }
{
    if let Some(rest) = after(b"OPEN", line) {
        return open_of(alloc, rest);
    }
    if let Some(rest) = after(b"LINE", line) {
        return line_of(alloc, rest);
    }
    if let Some(rest) = after(b"CHAR", line) {
        return char_of(alloc, rest);
    }
    if let Some(rest) = after(b"FILE", line) {
        return file_of(alloc, rest);
    }
    if let Some(rest) = after(b"SIZE", line) {
        return size_of(alloc, rest);
    }
    if let Some(rest) = after(b"LAST", line) {
        return last_of(alloc, rest);
    }
    if let Some(rest) = after(b"CLOSE", line) {
        return close_of(alloc, rest);
    }
    if let Some(rest) = after(b"WATCH", line) {
        return watch_of(rest);
    }
    Err(LineFault::BadLine)
}

/// The request that the line spells. The line comes without its LF; a CR that ends it is counted
/// and then dropped. `LongLine` exactly where the line has more than 2,047 bytes, and else
/// `BadLine` exactly where it spells no request; `NoMemory` where memory runs out. The budget of
/// OPEN is 50,000,000 ticks.
pub fn read_request(alloc: Global, line: &[u8]) -> Result<Request, LineFault>
    ensures only { IfOk result (λ request. request_of line.now ≡ Some request) }
    ensures exact { IfErr result (RefusesLine line.now (request_of line.now)) }
{
    if line.len() > MAX_LINE {
        return Err(LineFault::LongLine);
    }
    spelled_request(alloc, without_cr(line))
}
