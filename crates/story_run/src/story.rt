//! A story: the image of its file, and the file's digest.

ghost use Rattle.std.specs.Prelude.{◌≡◌};
ghost use Rattle.story_run.specs.Story.{story_of};

use glulx_image::{Image, ImageFault};
use sha2::{Digest, Sha256};

/// A story as it is played: its image, and the SHA-256 digest of the file's bytes.
#[derive(Drop)]
pub struct Story<'i> {
    pub image: Image<'i>,
    pub digest: [u8; 32],
}

impl<'i> Story<'i> {
    /// The story of a file's bytes, or the first check of the header that they fail.
    pub fn of(bytes: &'i [u8]) -> Result<Story<'i>, ImageFault>
        ensures exact { result ≡ story_of bytes.now }
    {
        let image = Image::parse(bytes)?;
        Ok(Story {
            image,
            digest: Sha256::digest(bytes),
        })
    }
}
