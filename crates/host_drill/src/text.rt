//! The whole drill.
ghost use Rattle.std.specs.Prelude.{◌≡◌, [], ◌∷◌, IfOk, IsTrue};
ghost use Rattle.host_drill.specs.Drill.{drill_text, echo};
ghost use Rattle.host_drill.specs.Drilled.{AreMade};

use crate::opening::{made_disks, open_host};
use crate::session::add_session;
use disk_model::{Disk, MemDisk};
use std::alloc::{AllocError, Global};
use std::sync::Wait;
use story_make::echo_story;
use story_run::Story;

/// How many sessions are played.
const SESSIONS: u8 = 8;

/// Has one host of the Echo story, over a journal on this disk, answer the scripts that the number
/// stands for. An error where memory ran out on the way, or a disk or a link failed.
fn drill_over<'i, R: Wait, D: Disk + Drop>(
    rt: &R,
    alloc: Global,
    stories: &'i [Story<'i>],
    journal: D,
    snaps: Vec<D>,
    number: u64,
) -> Result<Vec<u8>, AllocError>
    requires tells { IsTrue (D.tells journal) }
    requires made { AreMade D.Disk snaps.items }
    requires stories { stories.now ≡ echo ∷ [] }
    ensures value { IfOk result (λ text. text.items ≡ drill_text number) }
{
    let (host, mut passes) = open_host(alloc, stories, journal, snaps)?;
    let mut text = Vec::new(alloc);
    for session in 0..SESSIONS {
        add_session(rt, alloc, &host, &mut passes, number, session, &mut text)?;
    }
    text.extend_from_slice(b"done\n")?;
    Ok(text)
}

/// Has one host of the Echo story, over a journal in memory, answer the scripts that the number
/// stands for, of sessions 0 to 7, each over a link in memory: a line that opens the session and one
/// for each of 1,000 turns, with their snapshots on disks in memory, too. The text has a line for each session: its number, how many commands were
/// accepted, how many replies are refusals, and the SHA-256 digest of the replies as they are
/// written, in hexadecimal; and then the line `done`. An error where memory ran out on the way, of
/// the disk or a link too.
pub fn drill<R: Wait>(rt: &R, alloc: Global, number: u64) -> Result<Vec<u8>, AllocError>
    ensures value { IfOk result (λ text. text.items ≡ drill_text number) }
{
    let file = echo_story(alloc)?;
    let Ok(story) = Story::of(&file) else {
        unreachable!();
    };
    let stories = [story];
    let snaps = made_disks(alloc)?;
    drill_over(rt, alloc, &stories, MemDisk::new(alloc), snaps, number)
}
