//! A spectator beside a player of the same session.
ghost use Rattle.host_serve.specs.Hosts.{AreOf};

use crate::door::Lines;
use crate::holds::is_reached;
use crate::hosts::{is_answered, opened_for_two, worked};
use disk_model::MemDisk;
use host_serve::{Host, NoPause, Passes, Pause, Worked};
use line_words::push_show;
use std::alloc::{AllocError, Global};
use std::sync::Wait;
use std::sync::atomic::{AtomicBool, AtomicU64, Ordering};
use std::test::{Fail, *};
use story_make::echo_story;
use story_run::Story;
use turn_cell::{Pass, Told};

/// How many moves are played again for a spectator.
const MOVES: u32 = 2000;

/// How many moves come meanwhile.
const MORE: u32 = 5;

const OPEN: &[u8] = b"OPEN 0 abc 0 7 80 24";

const OPENED: &[u8] = b"SHOW 0 0\nW 1 3 0 0 80 24\nT 1 0 =>\nI 1 line 20 =\n.\n";

const GO: &[u8] = b"W 1 3 0 0 80 24\nT 1 8 =go%0A\nT 1 0 =go%0A>\nI 1 line 20 =\n";

/// The eight shows up to that of the last of these moves, by the session's word, six times.
const WATCHES: &[u8] = b"WATCH 0 ba7816bf8f01cfea 1993\nWATCH 0 ba7816bf8f01cfea 1993\n\
    WATCH 0 ba7816bf8f01cfea 1993\nWATCH 0 ba7816bf8f01cfea 1993\n\
    WATCH 0 ba7816bf8f01cfea 1993\nWATCH 0 ba7816bf8f01cfea 1993\n";

/// A line that is none, and the next moves.
const LINES: &[u8] = b"none\nLINE 0 abc 2001 1 =go\nLINE 0 abc 2002 1 =go\n\
    LINE 0 abc 2003 1 =go\nLINE 0 abc 2004 1 =go\nLINE 0 abc 2005 1 =go\n";

/// Holds the first reply of link 1 until a session has had a turn, and counts what link 0 was
/// answered before link 1 has all its replies.
#[derive(Drop)]
struct Beside {
    turns: AtomicU64,
    watched: AtomicU64,
    replies: AtomicU64,
    failed: AtomicBool,
}

impl Pause for Beside {
    fn in_turn<T: Told>(&self, _session: u8, _pass: &Pass<T>) {
        self.turns.fetch_add(1, Ordering::SeqCst);
    }

    fn before_reply(&self, link: u32) {
        if link == 0 {
            self.watched.fetch_add(1, Ordering::SeqCst);
            return;
        }
        let replies = self.replies.fetch_add(1, Ordering::SeqCst);
        let held = replies == 0 && !is_reached(&self.turns);
        let late = replies == u64::from(MORE) && self.watched.load(Ordering::SeqCst) > 2;
        if held || late {
            self.failed.store(true, Ordering::SeqCst);
        }
    }
}

/// The line of a move.
fn line_of(alloc: Global, n: u32) -> Result<Vec<u8>, AllocError> {
    let mut line = b"LINE 0 abc ".to_vec(alloc)?;
    line.extend_from_slice(n.to_string(alloc)?.as_bytes())?;
    line.extend_from_slice(b" 1 =go")?;
    Ok(line)
}

/// Shows of these moves.
fn push_shows(out: &mut Vec<u8>, alloc: Global, from: u32, to: u32) -> Result<(), AllocError> {
    for n in from..to {
        push_show(out, alloc, 0, n, GO)?;
    }
    Ok(())
}

/// What link 0 is answered.
fn seen(alloc: Global) -> Result<Vec<u8>, AllocError> {
    let mut text = Vec::new(alloc);
    for _ in 0..6 {
        text.extend_from_slice(b"SEEN 0 1993 2000\n")?;
        push_shows(&mut text, alloc, 1993, 2001)?;
    }
    Ok(text)
}

/// What link 1 is answered.
fn answered(alloc: Global) -> Result<Vec<u8>, AllocError> {
    let mut text = b"NO 1\n".to_vec(alloc)?;
    push_shows(&mut text, alloc, 2001, 2006)?;
    Ok(text)
}

/// Opens the session and makes its moves; says whether it was opened.
fn play<'i, R: Wait>(
    rt: &R,
    alloc: Global,
    host: &Host<'i, MemDisk>,
    passes: &mut Passes<'i, MemDisk>,
) -> Result<bool, AllocError>
    requires passes { AreOf host.now passes.old }
    ensures kept { AreOf host.now passes.new }
{
    let opened = is_answered(rt, alloc, host, passes, OPEN, OPENED);
    for n in 1..MOVES + 1 {
        let line = line_of(alloc, n)?;
        host.request(rt, alloc, passes, &NoPause, &line);
    }
    Ok(opened)
}

#[test]
fn a_move_is_answered_while_the_game_is_played_for_a_spectator(
    rt: HostRuntime,
) -> Result<(), Fail> {
    let alloc = rt.alloc();
    let bytes = echo_story(alloc)?;
    let stories = [Story::of(&bytes).ok().ok_or("a story")?];
    let gives: [Option<&[u8]>; 2] = [Some(WATCHES), Some(LINES)];
    let door = Lines::new(alloc, &gives);
    let pause = Beside {
        turns: AtomicU64::new(0),
        watched: AtomicU64::new(0),
        replies: AtomicU64::new(0),
        failed: AtomicBool::new(false),
    };
    let (host, mut one, two) = opened_for_two(alloc, &stories)?;
    assert!(rt; play(&rt, alloc, &host, &mut one)?);
    let ended = worked(&rt, alloc, &host, one, two, &door, &pause);
    assert!(rt; matches!(ended, Worked::Shut(())) && !pause.failed.load(Ordering::SeqCst));
    assert!(rt;
        door.answered(&rt, &seen(alloc)?) == 1 && door.answered(&rt, &answered(alloc)?) == 1
    );
    Ok(())
}
