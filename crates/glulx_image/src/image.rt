//! The image, and how a file becomes one.

ghost use Rattle.std.specs.Prelude.{◌≡◌};
ghost use Rattle.glulx_image.specs.Header.{IsLaidOut};
ghost use Rattle.glulx_image.specs.Image.{image_of};

use crate::ImageFault;
use crate::header::word;
use crate::layout::{has_order, has_pages, has_version, is_too_large};
use std::marker::Model;

/// The least length of a file.
const HEADER_SIZE: usize = 36;

/// `Glul` as a word.
const MAGIC: u32 = 0x476C_756C;

/// A file that passed every check, seen by contracts as the list of its bytes
/// (Glulx 3.1.3, "The Header").
#[derive(Drop)]
pub struct Image<'i> {
    bytes: &'i [u8],
}

impl<'i> Model for Image<'i> {
    ghost use Rattle.std.specs.Prelude.{List, ℕ};
    ghost use Rattle.glulx_image.specs.Header.{IsLaidOut};

    ghost Value = { List ℕ };

    ghost view = { λ image. image.bytes.now };

    ghost invariant = { λ image. IsLaidOut image.bytes.now };
}

impl<'i> Image<'i> {
    /// The image that the bytes are, or the first check that they fail. Bytes past EXTSTART are
    /// taken and ignored.
    pub fn parse(bytes: &'i [u8]) -> Result<Image<'i>, ImageFault>
        ensures exact { result ≡ image_of bytes.now }
    {
        if bytes.len() < HEADER_SIZE {
            return Err(ImageFault::Short);
        }
        if word(bytes, 0) != MAGIC {
            return Err(ImageFault::Magic);
        }
        if !has_version(bytes) {
            return Err(ImageFault::Version);
        }
        if !has_pages(bytes) || !has_order(bytes) {
            return Err(ImageFault::Layout);
        }
        if is_too_large(bytes) {
            return Err(ImageFault::TooLarge);
        }
        if bytes.len() < word(bytes, 12) as usize {
            return Err(ImageFault::Short);
        }
        Ok(Image { bytes })
    }

    /// The file's bytes.
    pub fn bytes(&self) -> &'i [u8]
        ensures value { result.now ≡ self.now }
        ensures kept { IsLaidOut self.now }
    {
        self.bytes
    }

    /// The same image, lent on.
    pub fn lend(&self) -> Image<'i>
        ensures value { result ≡ self.now }
    {
        Image { bytes: self.bytes }
    }
}
