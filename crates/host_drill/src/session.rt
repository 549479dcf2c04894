//! A session of the drill.
ghost use Rattle.std.specs.Prelude.{◌≡◌, ◌≢◌, ◌<◌, ◌+◌, ◌++◌, ℕ, IfOk, OnOk, length};
ghost use Rattle.std.specs.Prelude.{[], string_bytes};
ghost use Rattle.host_drill.specs.Drill.{counts_line, session_line};
ghost use Rattle.host_drill.specs.Drilled.{AreFreshFrom, IsDrilled, IsPlayed, history_seen};

use crate::link::answer_all;
use disk_model::Disk;
use host_serve::{Host, Passes};
use reply_tally::tally_of;
use sha2::{Digest, Sha256};
use std::alloc::{AllocError, Global};
use std::sync::Wait;
use story_make::script;

/// How many lines follow the one that opens a session.
const TURNS: u32 = 1000;

/// How many replies are refusals, and the digest of the replies as they are written.
#[derive(Drop)]
struct Played {
    refused: u64,
    digest: [u8; 32],
}

/// Has the host answer the script of a session. An error where memory ran out on the way.
fn play<'i, R: Wait, D: Disk + Drop>(
    rt: &R,
    alloc: Global,
    host: &Host<'i, D>,
    passes: &mut Passes<'i, D>,
    number: u64,
    session: u8,
) -> Result<Played, AllocError>
    requires drilled { IsDrilled D.Disk host.now passes.old }
    requires below { session < 64 }
    requires fresh { history_seen passes.old session ≡ [] }
    ensures value { IfOk result (λ played. IsPlayed passes.old passes.new number session
        played.refused played.digest) }
    ensures kept { IfOk result (λ _. IsDrilled D.Disk host.now passes.new) }
{
    let lines = script(alloc, number, session, TURNS)?;
    let answered = answer_all(rt, alloc, host, passes, u32::from(session), lines)?;
    let tally = tally_of(&answered.replies);
    if tally.failed {
        return Err(AllocError);
    }
    Ok(Played {
        refused: tally.refusals,
        digest: Sha256::digest(&answered.replies),
    })
}

/// How many entries the history of a session has. Its first line is given once more, and the line's
/// mark tells it. An error where memory ran out on the way.
fn length_of<'i, R: Wait, D: Disk + Drop>(
    rt: &R,
    alloc: Global,
    host: &Host<'i, D>,
    passes: &mut Passes<'i, D>,
    number: u64,
    session: u8,
) -> Result<u64, AllocError>
    requires drilled { IsDrilled D.Disk host.now passes.old }
    requires below { session < 64 }
    ensures value { IfOk result (λ n. n ≡ length (history_seen passes.old session)) }
    ensures others { IfOk result (λ _. (k : ℕ) → k ≢ session
        → history_seen passes.new k ≡ history_seen passes.old k) }
    ensures kept { IfOk result (λ _. IsDrilled D.Disk host.now passes.new) }
{
    let lines = script(alloc, number, session, 0)?;
    let answered = answer_all(rt, alloc, host, passes, u32::from(session), lines)?;
    match answered.marks.first() {
        Some(mark) if mark.session == session => Ok(mark.length),
        _ => Err(AllocError),
    }
}

/// The line of a session.
fn line_of(
    alloc: Global,
    session: u8,
    accepted: u64,
    refused: u64,
    digest: &str,
) -> Result<String, AllocError>
    ensures { IfOk result (λ line. string_bytes line
        ≡ counts_line session accepted refused digest.now) }
{
    format!(in alloc; "{session} {accepted} {refused} {digest}\n")
}

/// Plays a session, of which nothing was seen yet, and adds what is told of it.
pub fn add_session<'i, R: Wait, D: Disk + Drop>(
    rt: &R,
    alloc: Global,
    host: &Host<'i, D>,
    passes: &mut Passes<'i, D>,
    number: u64,
    session: u8,
    text: &mut Vec<u8>,
) -> Result<(), AllocError>
    requires drilled { IsDrilled D.Disk host.now passes.old }
    requires below { session < 64 }
    requires fresh { AreFreshFrom session passes.old }
    ensures told { OnOk result (text.new.items
        ≡ text.old.items ++ session_line number session) }
    ensures fresh { OnOk result (AreFreshFrom (session + 1) passes.new) }
    ensures kept { OnOk result (IsDrilled D.Disk host.now passes.new) }
{
    let played = play(rt, alloc, host, passes, number, session)?;
    let accepted = length_of(rt, alloc, host, passes, number, session)?;
    let digest = hex::encode(alloc, played.digest.as_slice())?;
    let line = line_of(alloc, session, accepted, played.refused, &digest)?;
    text.extend_from_slice(line.as_bytes())
}
