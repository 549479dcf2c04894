//! Names as codes (own).

ghost use Rattle.std.specs.Prelude.{◌≡◌, IfOk, OnOk, true};
ghost use Rattle.std.specs.Str.{all_scalars, chars, encode_utf8_all};
ghost use Rattle.std.specs.String.{string_bytes};
ghost use Rattle.snap_glk.specs.Making.{MakesIfFit};

use crate::unfit::Unfit;
use snap_fields::Items;
use std::alloc::{AllocError, Global};
use story_text::Text;

/// The codes of a text's characters.
pub(crate) fn codes_of(alloc: Global, text: &Text) -> Result<Items<u32>, AllocError>
    ensures { IfOk result (λ cs. (cs ≡ text.now) × (all_scalars cs ≡ true)) }
{
    let _utf8 = text.as_utf8();
    Ok(Items::of(codes_in(alloc, text.as_str())?))
}

fn codes_in(alloc: Global, text: &str) -> Result<Vec<u32>, AllocError>
    ensures { IfOk result (λ cs. cs.items ≡ chars text.now) }
{
    text.chars().map(u32::from).collect(alloc)
}

/// The text with these codes, where each is that of a character.
pub(crate) fn text_of(alloc: Global, codes: &[u32]) -> Result<Text, Unfit>
    ensures { MakesIfFit (λ cs. cs) all_scalars codes.now result }
{
    let mut utf8 = String::new(alloc);
    for code in codes {
        let Some(c) = char::from_u32(*code) else {
            return Err(Unfit::Invalid);
        };
        utf8.push(c)?;
    }
    Ok(Text::of(utf8))
}
