//! The Echo story (own; the layout is Glulx 3.1.3, "The Header").

ghost use Rattle.std.specs.Prelude.{◌≡◌, ◌++◌, IfOk, Ok, OnOk, flat_map};
ghost use Rattle.std.specs.Int.{w32, to_be_bytes};
ghost use Rattle.glulx_image.specs.Image.{image_of};
ghost use Rattle.glulx_image.specs.Checksum.{verified};
ghost use Rattle.story_make.specs.Echo.{echo_bytes};

use std::alloc::{AllocError, Global};

/// The nine words of the header.
const HEADER: [u32; 9] = [
    0x476C_756C,
    0x0003_0103,
    0x100,
    0x100,
    0x200,
    0x100,
    0x24,
    0,
    0x166C_941C,
];

/// The one function, which stands behind the header.
const CODE: [u8; 84] =
    *b"\xC1\x00\x00\x40\x80\x40\x81\x03\x40\x80\x40\x80\x40\x80\x81\x30\x11\x08\x23\x05\x81\x30\
        \x11\x00\x2F\x01\x81\x49\x01\x02\x70\x01\x3E\x40\x80\x40\x81\x14\x40\x82\x01\x00\x40\x81\
        \x01\x81\x30\x12\x00\x00\xD0\x04\x40\x82\x01\x20\x81\x30\x12\x00\x00\xC0\x01\x40\x86\x01\
        \x28\x40\x82\x01\x00\x81\x30\x12\x00\x00\x84\x02\x70\x01\x0A\x20\x01\xCC";

/// The bytes of the file.
const SIZE: usize = 256;

/// The words, each with its high byte first.
fn push_words(out: &mut Vec<u8>, words: &[u32]) -> Result<(), AllocError>
    ensures { OnOk result (out.new.items
        ≡ out.old.items ++ flat_map (to_be_bytes w32) words.now) }
{
    for word in words {
        out.extend_from_slice(&word.to_be_bytes())?;
    }
    Ok(())
}

/// The file of the Echo story, 256 bytes: it prints `>`, asks for a line of at most 20 characters,
/// prints it and a newline, and begins again. An error where memory runs out.
pub fn echo_story(alloc: Global) -> Result<Vec<u8>, AllocError>
    ensures value { IfOk result (λ v. v.items ≡ echo_bytes) }
    ensures image { IfOk result (λ v. image_of v.items ≡ Ok v.items) }
    ensures checksum { IfOk result (λ v. verified v.items ≡ 0) }
{
    let mut story = Vec::new(alloc);
    push_words(&mut story, &HEADER)?;
    story.extend_from_slice(&CODE)?;
    story.resize(SIZE, 0)?;
    Ok(story)
}
