//! The fields of a line: one space and a word (own).

ghost use Rattle.std.specs.Prelude.{◌≡◌, ◌≤◌, IfOk, IfSome, MatchOption, None, Some};
ghost use Rattle.line_words.specs.Keycode.{is_scalar, is_code};
ghost use Rattle.line_words.specs.Field.{word_of, rest_from_space, word_at, number_between, key_at};
ghost use Rattle.line_words.specs.Field.{text_at, watch_word_at};
ghost use Rattle.line_words.specs.Field.{code_at, terminator_at, behind_name};
ghost use Rattle.line_words.specs.Reading.{GivesLineReading, at_end};

use crate::fault::LineFault;
use crate::key::{Key, is_key, is_watch_word};
use crate::number::number_of;
use std::alloc::Global;
use story_text::keycode::{is_keycode, is_terminator};
use story_text::{Text, read_escaped};

/// The word at the front, and the bytes from the first space on.
fn split_word(bytes: &[u8]) -> (&[u8], &[u8])
    ensures word { result.0.now ≡ word_of bytes.now }
    ensures rest { result.1.now ≡ rest_from_space bytes.now }
{
    let mut at = 0;
    while at < bytes.len() && bytes[at] != b' ' {
        at += 1;
    }
    bytes.split_at(at)
}

#[tactic(auto, unfolding(crate::specs::Field::word_at))]
fn word_at(bytes: &[u8]) -> Result<(&[u8], &[u8]), LineFault>
    ensures { GivesLineReading (λ x. (x.0.now, x.1.now)) result (word_at bytes.now) }
{
    match bytes {
        [b' ', rest @ ..] => Ok(split_word(rest)),
        _ => Err(LineFault::BadLine),
    }
}

/// The number in the next field, from `low` to `high`.
#[tactic(auto, unfolding(crate::specs::Field::number_between))]
pub fn number_at(low: u64, high: u64, bytes: &[u8]) -> Result<(u64, &[u8]), LineFault>
    ensures value { GivesLineReading (λ x. (x.0, x.1.now)) result
        (number_between low high bytes.now) }
    ensures within { IfOk result (λ x. x.0 ≤ high) }
{
    let (word, rest) = word_at(bytes)?;
    match number_of(high, word) {
        Some(number) => {
            if number < low {
                return Err(LineFault::BadLine);
            }
            Ok((number, rest))
        }
        None => Err(LineFault::BadLine),
    }
}

pub fn u32_at(low: u64, bytes: &[u8]) -> Result<(u32, &[u8]), LineFault>
    ensures { GivesLineReading (λ x. (x.0, x.1.now)) result (number_between low u32.MAX bytes.now) }
{
    let (number, rest) = number_at(low, u64::from(u32::MAX), bytes)?;
    Ok((number as u32, rest))
}

pub fn u8_at(low: u64, bytes: &[u8]) -> Result<(u8, &[u8]), LineFault>
    ensures { GivesLineReading (λ x. (x.0, x.1.now)) result (number_between low 255 bytes.now) }
{
    let (number, rest) = number_at(low, 255, bytes)?;
    Ok((number as u8, rest))
}

#[tactic(auto, unfolding(crate::specs::Field::key_at))]
pub fn key_at(alloc: Global, bytes: &[u8]) -> Result<(Key, &[u8]), LineFault>
    ensures { GivesLineReading (λ x. (x.0, x.1.now)) result (key_at bytes.now) }
{
    let (word, rest) = word_at(bytes)?;
    if !is_key(word) {
        return Err(LineFault::BadLine);
    }
    Ok((Key::of(alloc, word)?, rest))
}

/// A session's word for spectators.
#[tactic(auto, unfolding(crate::specs::Field::watch_word_at))]
pub fn watch_word_at(bytes: &[u8]) -> Result<([u8; 16], &[u8]), LineFault>
    ensures { GivesLineReading (λ x. (x.0, x.1.now)) result (watch_word_at bytes.now) }
{
    let (digits, rest) = word_at(bytes)?;
    if !is_watch_word(digits) {
        return Err(LineFault::BadLine);
    }
    let mut word = [0; 16];
    word.copy_from_slice(digits);
    Ok((word, rest))
}

#[tactic(auto, unfolding(crate::specs::Field::text_at))]
pub fn text_at(alloc: Global, bytes: &[u8]) -> Result<(Text, &[u8]), LineFault>
    ensures { GivesLineReading (λ x. (x.0, x.1.now)) result (text_at bytes.now) }
{
    let (word, rest) = word_at(bytes)?;
    Ok((read_escaped(alloc, word)?, rest))
}

/// Whether the code is a Unicode scalar value or a keycode.
pub fn is_code(code: u32) -> bool
    ensures { result ≡ is_code code }
{
    char::from_u32(code).is_some() || is_keycode(code)
}

/// A Unicode scalar value or a keycode.
#[tactic(auto, unfolding(crate::specs::Field::code_at))]
pub fn code_at(bytes: &[u8]) -> Result<(u32, &[u8]), LineFault>
    ensures { GivesLineReading (λ x. (x.0, x.1.now)) result (code_at bytes.now) }
{
    let (code, rest) = u32_at(0, bytes)?;
    if !is_code(code) {
        return Err(LineFault::BadLine);
    }
    Ok((code, rest))
}

/// The terminator key that ends the line, or 0 where none is named.
#[tactic(auto, unfolding(crate::specs::Field::terminator_at))]
pub fn terminator_at(bytes: &[u8]) -> Result<(u32, &[u8]), LineFault>
    ensures { GivesLineReading (λ x. (x.0, x.1.now)) result (terminator_at bytes.now) }
{
    if bytes.is_empty() {
        return Ok((0, bytes));
    }
    let (key, rest) = u32_at(0, bytes)?;
    if !is_terminator(key) {
        return Err(LineFault::BadLine);
    }
    Ok((key, rest))
}

/// Nothing may follow the last field.
pub fn at_end(rest: &[u8]) -> Result<(), LineFault>
    ensures { GivesLineReading (λ x. x) result (at_end rest.now) }
{
    if rest.is_empty() {
        Ok(())
    } else {
        Err(LineFault::BadLine)
    }
}

/// What follows the name at the front.
pub fn after<'a>(name: &[u8], line: &'a [u8]) -> Option<&'a [u8]>
    ensures { MatchOption result (behind_name name.now line.now ≡ None)
        (λ rest. behind_name name.now line.now ≡ Some rest.now) }
{
    match name {
        [] => Some(line),
        [n, names @ ..] => match line {
            [] => None,
            [b, rest @ ..] => { if *n == *b { after(names, rest) } else { None } }
        },
    }
}
