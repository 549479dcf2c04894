//! Names of files (Glk 0.7.5, "File References").

ghost use Rattle.std.specs.Prelude.{◌≡◌, ◌≢◌, ◌<◌, ◌≤◌, ◌-◌, ◌++◌, ◌∷◌, List, ℕ, IfOk};
ghost use Rattle.std.specs.Str.{chars};
ghost use Rattle.std.specs.String.{string_bytes};
ghost use Rattle.glk_streams.specs.Names.{cleaned, name_cut, is_taken_out, temporary};

use itoa::Buffer;
use std::alloc::{AllocError, Global};
use story_text::Text;

/// Whether the character is taken out of names.
fn is_taken_out(c: char) -> bool
    ensures { result ≡ is_taken_out c }
{
    c < ' ' || matches!(c, '"' | '/' | '\\' | '>' | '<' | ':' | '|' | '?' | '*')
}

/// The name of a temporary file, by the number that its reference gets.
pub fn temporary_name(alloc: Global, number: u32) -> Result<Text, AllocError>
    ensures { IfOk result (λ name. name ≡ temporary number) }
{
    let mut buffer = Buffer::new();
    let mut name = String::new(alloc);
    name.push_str(".temp")?;
    name.push_str(buffer.format(number))?;
    Ok(Text::of(name))
}

/// Appends a character that isn't taken out, and gives how many there then are.
fn append(clean: &mut String, count: usize, c: char) -> Result<usize, AllocError>
    requires room { count < 64 }
    requires no_period { c ≢ 0x2E }
    ensures within { IfOk result (λ n. n ≤ 64) }
    ensures rest { IfOk result (λ n. (rest : List ℕ) →
        chars (string_bytes clean.new) ++ name_cut (64 - n) rest
        ≡ chars (string_bytes clean.old) ++ name_cut (64 - count) (c ∷ rest)) }
{
    if is_taken_out(c) {
        return Ok(count);
    }
    clean.push(c)?;
    Ok(count + 1)
}

/// What is left of a name, cut to 64 characters.
fn cut(alloc: Global, name: &str) -> Result<String, AllocError>
    ensures { IfOk result (λ clean. chars (string_bytes clean) ≡ name_cut 64 (chars name.now)) }
{
    let mut clean = String::new(alloc);
    let mut count = 0;
    for c in name.chars() {
        if c == '.' {
            return Ok(clean);
        }
        if count == 64 {
            return Ok(clean);
        }
        count = append(&mut clean, count, c)?;
    }
    Ok(clean)
}

/// A name as files have it: characters taken out, cut at the first period and to 64 characters,
/// and `null` where nothing is left.
pub fn clean_name(alloc: Global, name: &Text) -> Result<Text, AllocError>
    ensures { IfOk result (λ clean. clean ≡ cleaned name.now) }
{
    let clean = Text::of(cut(alloc, name.as_str())?);
    if !clean.as_utf8().is_empty() {
        return Ok(clean);
    }
    let mut null = String::new(alloc);
    null.push_str("null")?;
    Ok(Text::of(null))
}
