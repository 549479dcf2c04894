//! Words of a show's lines (own: docs/FORMATS.md, "Shows").

ghost use Rattle.std.specs.Prelude.{◌≡◌, ◌++◌, ◌∷◌, [], IfOk, decimal, map};
ghost use Rattle.std.specs.Str.{encode_utf8_all};
ghost use Rattle.std.specs.String.{string_bytes};
ghost use Rattle.story_show.specs.Words.{AddsText, number_after_space, shown_code, text};

use itoa::Buffer;
use std::alloc::{AllocError, Global};
use story_text::{Text, write_escaped};

/// A space and a number.
pub(crate) fn write_field(out: &mut Vec<u8>, number: u32) -> Result<(), AllocError>
    ensures { AddsText (number_after_space number) out.old.items out.new.items result }
{
    let mut buffer = Buffer::new();
    out.push(b' ')?;
    out.extend_from_slice(buffer.format(number).as_bytes())
}

/// A text at the end of a line.
pub(crate) fn write_text(alloc: Global, out: &mut Vec<u8>, codes: &[u32]) -> Result<(), AllocError>
    ensures { AddsText (text codes.now) out.old.items out.new.items result }
{
    let shown = text_of(alloc, codes)?;
    out.push(b' ')?;
    write_escaped(alloc, &shown, out)?;
    out.push(b'\n')?;
    Ok(())
}

// The codes as characters, `?` for one that is none.
fn text_of(alloc: Global, codes: &[u32]) -> Result<Text, AllocError>
    ensures { IfOk result (λ shown. shown ≡ map shown_code codes.now) }
{
    let utf8 = utf8_of(alloc, codes)?;
    Ok(Text::of(utf8))
}

fn utf8_of(alloc: Global, codes: &[u32]) -> Result<String, AllocError>
    ensures { IfOk result (λ utf8. string_bytes utf8
        ≡ encode_utf8_all (map shown_code codes.now)) }
{
    codes.iter().map(|code| character(*code)).collect(alloc)
}

fn character(code: u32) -> char
    ensures { result ≡ shown_code code }
{
    match char::from_u32(code) {
        Some(c) => c,
        None => '?',
    }
}
