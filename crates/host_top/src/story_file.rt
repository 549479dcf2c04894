//! The story in a file: a container or an image.
ghost use Rattle.std.specs.Prelude.{◌≡◌, Ok, Err, IfOk, IfErr, is_ok};
ghost use Rattle.host_top.specs.StoryFile as file;

use blorb_read::{BlorbFault, find_story};
use glulx_image::{Image, ImageFault};
use story_run::Story;

/// Why a file is no story: its container's first fault, or its image's.
#[derive(Clone, Copy, Debug, PartialEq, Eq)]
pub enum StoryFault {
    Image(ImageFault),
    Blorb(BlorbFault),
}

/// The bytes of the image: those of the container's story, or the whole file.
fn image_bytes(bytes: &[u8]) -> Result<&[u8], StoryFault>
    ensures ok { IfOk result (λ image. file.image_bytes bytes.now ≡ Ok image.now) }
    ensures err { IfErr result (λ fault. file.image_bytes bytes.now ≡ Err fault) }
{
    if !bytes.starts_with(b"FORM") {
        return Ok(bytes);
    }
    match find_story(bytes) {
        Ok(span) => Ok(&bytes[span.start..span.start + span.length]),
        Err(fault) => Err(StoryFault::Blorb(fault)),
    }
}

/// Whether a file is a story.
pub fn is_story(bytes: &[u8]) -> bool
    ensures { result ≡ is_ok (file.story_in_file bytes.now) }
{
    match image_bytes(bytes) {
        Ok(image) => Image::parse(image).is_ok(),
        Err(_) => false,
    }
}

/// The story of a file, or the first fault of its container or its image.
pub fn story_of<'i>(bytes: &'i [u8]) -> Result<Story<'i>, StoryFault>
    ensures { result ≡ file.story_in_file bytes.now }
{
    match image_bytes(bytes) {
        Ok(image) => match Story::of(image) {
            Ok(story) => Ok(story),
            Err(fault) => Err(StoryFault::Image(fault)),
        },
        Err(fault) => Err(fault),
    }
}
