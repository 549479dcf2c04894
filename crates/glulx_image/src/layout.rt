//! The checks of the header.

ghost use Rattle.std.specs.Prelude.{◌≡◌, ◌≤◌, length};
ghost use Rattle.glulx_image.specs.Header as header;

use crate::header::word;

/// Segment boundaries are multiples of this.
const PAGE: u32 = 256;

/// The greatest file, memory and stack that this host takes, in bytes.
const MAX_FILE: usize = 67_108_864;

const MAX_MEMORY: u32 = 16_777_216;

const MAX_STACK: u32 = 1_048_576;

fn is_page(n: u32) -> bool
    ensures { result ≡ header.is_page n }
{
    n % PAGE == 0
}

/// Whether the version is one from 2.0.0 to 3.1.255.
pub(crate) fn has_version(bytes: &[u8]) -> bool
    requires { 36 ≤ length bytes.now }
    ensures { result ≡ header.has_version bytes.now }
{
    let version = word(bytes, 4);
    0x0002_0000 <= version && version <= 0x0003_01FF
}

/// Whether the segments and the stack are whole pages.
pub(crate) fn has_pages(bytes: &[u8]) -> bool
    requires { 36 ≤ length bytes.now }
    ensures { result ≡ header.has_pages bytes.now }
{
    is_page(word(bytes, 8))
        && is_page(word(bytes, 12))
        && is_page(word(bytes, 16))
        && is_page(word(bytes, 20))
}

/// Whether the segments come in their order.
pub(crate) fn has_order(bytes: &[u8]) -> bool
    requires { 36 ≤ length bytes.now }
    ensures { result ≡ header.has_order bytes.now }
{
    let ramstart = word(bytes, 8);
    let extstart = word(bytes, 12);
    PAGE <= ramstart && ramstart <= extstart && extstart <= word(bytes, 16)
}

/// Whether the file, its memory or its stack is larger than this host takes.
pub(crate) fn is_too_large(bytes: &[u8]) -> bool
    requires { 36 ≤ length bytes.now }
    ensures { result ≡ header.is_too_large bytes.now }
{
    bytes.len() > MAX_FILE || word(bytes, 16) > MAX_MEMORY || word(bytes, 20) > MAX_STACK
}
