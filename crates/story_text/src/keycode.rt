//! Keycodes (Glk 0.7.5, "Character Input").

ghost use Rattle.std.specs.Prelude.{◌≡◌};
ghost use Rattle.story_text.specs.Keycode as keycode;

pub const UNKNOWN: u32 = 0xFFFF_FFFF;

pub const LEFT: u32 = 0xFFFF_FFFE;

pub const RIGHT: u32 = 0xFFFF_FFFD;

pub const UP: u32 = 0xFFFF_FFFC;

pub const DOWN: u32 = 0xFFFF_FFFB;

pub const RETURN: u32 = 0xFFFF_FFFA;

pub const DELETE: u32 = 0xFFFF_FFF9;

pub const ESCAPE: u32 = 0xFFFF_FFF8;

pub const TAB: u32 = 0xFFFF_FFF7;

pub const PAGE_UP: u32 = 0xFFFF_FFF6;

pub const PAGE_DOWN: u32 = 0xFFFF_FFF5;

pub const HOME: u32 = 0xFFFF_FFF4;

pub const END: u32 = 0xFFFF_FFF3;

/// The first of the function keys, whose numbers fall up to the twelfth.
pub const FUNC1: u32 = 0xFFFF_FFEF;

pub const FUNC12: u32 = 0xFFFF_FFE4;

/// Whether the code is that of a key which is no character.
pub fn is_keycode(code: u32) -> bool
    ensures { result ≡ keycode.is_keycode code }
{
    code >= END || is_function_key(code)
}

/// Whether the key may end a line: Escape and the function keys.
pub fn is_terminator(code: u32) -> bool
    ensures { result ≡ keycode.is_terminator code }
{
    code == ESCAPE || is_function_key(code)
}

fn is_function_key(code: u32) -> bool
    ensures { result ≡ keycode.is_function_key code }
{
    FUNC12 <= code && code <= FUNC1
}
