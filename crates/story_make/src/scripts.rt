//! Scripts of requests (own).

ghost use Rattle.std.specs.Prelude.{◌≡◌, IfOk};
ghost use Rattle.story_make.specs.Script.{script_bytes};

use crate::line::push_line;
use crate::place::Place;
use rand_core::utils::NextWord;
use rand_pcg::Lcg64Xsh32;
use std::alloc::{AllocError, Global};

/// The lines, each with its LF, that the number stands for: one that opens the session, and one for
/// each of so many turns. A turn takes the next word of the number's generator on the session's
/// stream. The lines of a session of 64 or more are spelled, and a host refuses them. An error where
/// memory runs out.
pub fn script(alloc: Global, number: u64, session: u8, turns: u32) -> Result<Vec<u8>, AllocError>
    ensures { IfOk result (λ v. v.items ≡ script_bytes number session turns) }
{
    let mut words = Lcg64Xsh32::new(number, u64::from(session));
    let mut place = Place::begun(number);
    let mut out = Vec::new(alloc);
    push_line(&mut out, alloc, session, place.line)?;
    for _ in 0..turns {
        place = place.turned(words.next_word());
        push_line(&mut out, alloc, session, place.line)?;
    }
    Ok(out)
}
