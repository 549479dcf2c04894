//! Texts as lists of characters (own).

ghost use Rattle.std.specs.Prelude.{◌≡◌, List, ℕ, true, IfOk};
ghost use Rattle.std.specs.Str.{chars, all_scalars, bytes_eq, encode_utf8_all};
ghost use Rattle.std.specs.String.{string_bytes};
ghost use Rattle.story_text.specs.Text.{is_short};

use crate::read::is_short;
use std::alloc::{AllocError, Global};
use std::marker::Model;

/// A list of characters, each a Unicode scalar value, kept as UTF-8.
#[derive(Debug, Drop)]
pub struct Text {
    utf8: String,
}

impl Model for Text {
    ghost Value = { List ℕ };

    ghost view = { λ t. chars (string_bytes t.utf8) };
}

impl Text {
    /// The characters of the string.
    pub fn of(utf8: String) -> Text
        ensures { result ≡ chars (string_bytes utf8) }
    {
        Text { utf8 }
    }

    /// The characters, lent as a string slice.
    pub fn as_str(&self) -> &str
        ensures { chars result.now ≡ self.now }
    {
        self.utf8.as_str()
    }

    /// The characters in UTF-8, lent.
    pub fn as_utf8(&self) -> &[u8]
        ensures value { result.now ≡ encode_utf8_all self.now }
        ensures scalars { all_scalars self.now ≡ true }
    {
        self.utf8.as_bytes()
    }

    /// Whether a line may hold it: at most 1,024 characters, none of them a control character.
    pub fn is_short(&self) -> bool
        ensures { result ≡ is_short self.now }
    {
        is_short(self.as_str())
    }

    /// Whether both have the same characters.
    pub fn is_same(&self, other: &Text) -> bool
        ensures { result ≡ bytes_eq self.now other.now }
    {
        self.utf8 == other.utf8
    }

    /// An equal text; an error where memory runs out.
    pub fn copy_of(&self, alloc: Global) -> Result<Text, AllocError>
        ensures { IfOk result (λ t. t ≡ self.now) }
    {
        let mut utf8 = String::new(alloc);
        utf8.push_str(self.utf8.as_str())?;
        Ok(Text { utf8 })
    }
}

/// The text's characters in UTF-8; an error where memory runs out.
pub fn to_utf8(alloc: Global, text: &Text) -> Result<Vec<u8>, AllocError>
    ensures { IfOk result (λ v. v.items ≡ encode_utf8_all text.now) }
{
    Vec::from_slice(alloc, text.as_utf8())
}
