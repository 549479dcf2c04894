//! Writing a text with its escapes (own).

ghost use Rattle.std.specs.Prelude.{◌≡◌, ◌++◌, OnOk, OnErr, IfOk};
ghost use Rattle.std.specs.String.{string_bytes};
ghost use Rattle.story_text.specs.Escape.{escaped, Escapes};

use crate::text::Text;
use percent_encoding::{AsciiSet, CONTROLS, percent_encode};
use std::alloc::{AllocError, Global};

/// The bytes that are written by an escape; those above 0x7F are in any case.
fn escaped_bytes() -> AsciiSet
    ensures { Escapes result }
{
    CONTROLS.add(b' ').add(b'%')
}

fn escaped(alloc: Global, text: &Text) -> Result<String, AllocError>
    ensures { IfOk result (λ s. string_bytes s ≡ escaped text.now) }
{
    let mut word = String::new(alloc);
    word.push('=')?;
    percent_encode(text.as_utf8(), escaped_bytes()).append_to(&mut word)?;
    Ok(word)
}

/// Appends `=` and the text's UTF-8: bytes 0x00 to 0x20, `%` and 0x7F to 0xFF are written as `%`
/// and two upper-case hexadecimal digits, the others as they are. An error is want of memory.
pub fn write_escaped(alloc: Global, text: &Text, into: &mut Vec<u8>) -> Result<(), AllocError>
    ensures ok { OnOk result (into.new.items ≡ into.old.items ++ escaped text.now) }
    ensures err { OnErr result (into.new.items ≡ into.old.items) }
{
    let word = escaped(alloc, text)?;
    into.extend_from_slice(word.as_bytes())
}
