//! Reading a text with its escapes (own).

ghost use Rattle.std.specs.Prelude.{◌≡◌, OnErr, IfOk, IfErr, IfSome, IfNone, None, Some};
ghost use Rattle.std.specs.Prelude.{true, false, length};
ghost use Rattle.std.specs.Str.{chars, is_utf8};
ghost use Rattle.std.specs.String.{string_bytes};
ghost use Rattle.percent_encoding.specs.Percent.{percent_decode};
ghost use Rattle.story_text.specs.declared.fault.TextFault.TheVariants.{BadText};
ghost use Rattle.story_text.specs.Text.{is_allowed, are_allowed, is_short};
ghost use Rattle.story_text.specs.Escape.{is_visible, is_hex};
ghost use Rattle.story_text.specs.Reading.{is_spelled, text_of_bytes, text_of, ReadsText};

use crate::fault::TextFault;
use crate::text::Text;
use percent_encoding::percent_decode;
use std::alloc::Global;

/// The most characters of a text in a line.
const MAX_TEXT: usize = 1024;

fn is_hex(byte: u8) -> bool
    ensures { result ≡ is_hex byte }
{
    matches!(byte, b'0'..=b'9' | b'A'..=b'F' | b'a'..=b'f')
}

fn is_visible(byte: u8) -> bool
    ensures { result ≡ is_visible byte }
{
    matches!(byte, 0x21..=0x7E)
}

fn is_allowed(code: char) -> bool
    ensures { result ≡ is_allowed code }
{
    let code = u32::from(code);
    code >= 0x20 && !(0x7F <= code && code <= 0x9F)
}

/// Visible bytes alone, and two digits after each `%`.
fn is_spelled(body: &[u8]) -> bool
    ensures { result ≡ is_spelled 0 body.now }
{
    let mut due: u8 = 0;
    for byte in body {
        if due > 0 {
            if !is_hex(*byte) {
                return false;
            }
            due -= 1;
        } else if *byte == b'%' {
            due = 2;
        } else if !is_visible(*byte) {
            return false;
        }
    }
    due == 0
}

fn are_allowed(text: &str) -> bool
    ensures { result ≡ are_allowed (chars text.now) }
{
    for code in text.chars() {
        if !is_allowed(code) {
            return false;
        }
    }
    true
}

fn count_chars(text: &str) -> usize
    ensures { result ≡ length (chars text.now) }
{
    text.chars().count()
}

/// Whether a line may hold the text: at most 1,024 characters, none of them a control character.
pub fn is_short(text: &str) -> bool
    ensures { result ≡ is_short (chars text.now) }
{
    count_chars(text) <= MAX_TEXT && are_allowed(text)
}

/// The bytes as a string, where they are UTF-8.
fn utf8_of(bytes: Vec<u8>) -> Option<String>
    ensures none { IfNone result (is_utf8 bytes.items ≡ false) }
    ensures some { IfSome result
        (λ s. (is_utf8 bytes.items ≡ true) × (string_bytes s ≡ bytes.items)) }
{
    match String::from_utf8(bytes) {
        Ok(utf8) => Some(utf8),
        Err(_) => None,
    }
}

/// The text with these bytes as its UTF-8. `BadText` exactly where they are no UTF-8 of a text that a
/// line may hold. No memory is taken, so there is no other refusal.
pub fn text_of_bytes(bytes: Vec<u8>) -> Result<Text, TextFault>
    ensures value { ReadsText (text_of_bytes bytes.items) result }
    ensures refusal { IfErr result (λ fault. fault ≡ BadText) }
{
    let Some(utf8) = utf8_of(bytes) else {
        return Err(TextFault::BadText);
    };
    if !is_short(utf8.as_str()) {
        return Err(TextFault::BadText);
    }
    Ok(Text::of(utf8))
}

/// The text behind the mark.
fn unescaped(alloc: Global, body: &[u8]) -> Result<Text, TextFault>
    ensures { ReadsText (text_of_bytes (percent_decode body.now)) result }
{
    let mut bytes = Vec::new(alloc);
    percent_decode(body).append_to(&mut bytes)?;
    text_of_bytes(bytes)
}

/// The text that the word spells: `=`, and then visible bytes (0x21 to 0x7E) in which each `%` is
/// followed by two hexadecimal digits, for the UTF-8 of at most 1,024 characters, none of them a
/// control character. `BadText` exactly where it spells none; `NoMemory` where memory runs out.
#[tactic(auto, unfolding(crate::specs::Reading::text_of))]
pub fn read_escaped(alloc: Global, word: &[u8]) -> Result<Text, TextFault>
    ensures only { IfOk result (λ text. text_of word.now ≡ Some text) }
    ensures exact { IfErr result (λ fault. fault ≡ BadText → text_of word.now ≡ None) }
{
    match word {
        [b'=', body @ ..] => {
            if is_spelled(body) {
                unescaped(alloc, body)
            } else {
                Err(TextFault::BadText)
            }
        }
        _ => Err(TextFault::BadText),
    }
}
