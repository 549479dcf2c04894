//! Two workers at a door.
ghost use Rattle.host_serve.specs.Hosts.{AreOf};

use crate::door::Lines;
use crate::holds::{HeldReply, HeldTurn};
use crate::hosts::{is_answered, opened_for_two, worked};
use disk_model::MemDisk;
use host_serve::{Host, NoPause, Passes, Pause, Worked};
use std::alloc::Global;
use std::sync::Wait;
use std::sync::atomic::Ordering;
use std::test::{Fail, *};
use std::thread::Threads;
use story_make::echo_story;
use story_run::Story;

const OPEN: &[u8] = b"OPEN 0 k1 0 7 80 24";

const OPENED: &[u8] = b"SHOW 0 0\nW 1 3 0 0 80 24\nT 1 0 =>\nI 1 line 20 =\n.\n";

const OTHER_OPEN: &[u8] = b"OPEN 1 k2 0 7 80 24";

const OTHER_OPENED: &[u8] = b"SHOW 1 0\nW 1 3 0 0 80 24\nT 1 0 =>\nI 1 line 20 =\n.\n";

const A: &[u8] = b"SHOW 0 1\nW 1 3 0 0 80 24\nT 1 8 =a%0A\nT 1 0 =a%0A>\nI 1 line 20 =\n.\n";

const OTHER_B: &[u8] = b"SHOW 1 1\nW 1 3 0 0 80 24\nT 1 8 =b%0A\nT 1 0 =b%0A>\nI 1 line 20 =\n.\n";

const A_AND_A: &[u8] = b"SHOW 0 1\nW 1 3 0 0 80 24\nT 1 8 =a%0A\nT 1 0 =a%0A>\nI 1 line 20 =\n.\n\
    SHOW 0 1\nW 1 3 0 0 80 24\nT 1 8 =a%0A\nT 1 0 =a%0A>\nI 1 line 20 =\n.\n";

const B_AND_B: &[u8] = b"SHOW 0 1\nW 1 3 0 0 80 24\nT 1 8 =b%0A\nT 1 0 =b%0A>\nI 1 line 20 =\n.\n\
    SHOW 0 1\nW 1 3 0 0 80 24\nT 1 8 =b%0A\nT 1 0 =b%0A>\nI 1 line 20 =\n.\n";

const NO_AND_A: &[u8] =
    b"NO 7\nSHOW 0 1\nW 1 3 0 0 80 24\nT 1 8 =a%0A\nT 1 0 =a%0A>\nI 1 line 20 =\n.\n";

const NO_AND_B: &[u8] =
    b"NO 7\nSHOW 0 1\nW 1 3 0 0 80 24\nT 1 8 =b%0A\nT 1 0 =b%0A>\nI 1 line 20 =\n.\n";

/// Whether lines are answered so.
fn are_answered<'i, R: Wait>(
    rt: &R,
    alloc: Global,
    host: &Host<'i, MemDisk>,
    passes: &mut Passes<'i, MemDisk>,
    rows: &[(&[u8], &[u8])],
) -> bool
    requires passes { AreOf host.now passes.old }
    ensures kept { AreOf host.now passes.new }
{
    let mut answered = true;
    for row in rows {
        answered = is_answered(rt, alloc, host, passes, row.0, row.1) && answered;
    }
    answered
}

/// Whether the work of two at a door ends as it is shut, and not as it fails, once their host has
/// answered these lines so.
fn is_shut<'i, R: Threads + Wait + Sync, P: Pause + Sync>(
    rt: &R,
    alloc: Global,
    stories: &'i [Story<'i>],
    rows: &[(&[u8], &[u8])],
    door: &Lines<'_>,
    pause: &P,
) -> Result<bool, Fail> {
    let (host, mut one, two) = opened_for_two(alloc, stories)?;
    if !are_answered(rt, alloc, &host, &mut one, rows) {
        return Err("other replies".into());
    }
    let ended = worked(rt, alloc, &host, one, two, door, pause);
    Ok(matches!(ended, Worked::Shut(())))
}

/// Whether one of two links had its command, and the other one was refused.
fn one_has_its_command<R: Wait>(rt: &R, door: &Lines<'_>) -> bool {
    let a = (door.answered(rt, A_AND_A), door.answered(rt, NO_AND_A));
    let b = (door.answered(rt, B_AND_B), door.answered(rt, NO_AND_B));
    (a == (1, 1) && b == (0, 0)) || (a == (0, 0) && b == (1, 1))
}

#[test]
fn of_two_links_with_another_text_one_has_its_command(rt: HostRuntime) -> Result<(), Fail> {
    let alloc = rt.alloc();
    let bytes = echo_story(alloc)?;
    let stories = [Story::of(&bytes).ok().ok_or("a story")?];
    let gives: [Option<&[u8]>; 2] = [
        Some(b"LINE 0 k1 1 1 =a\nLAST 0 k1\n"),
        Some(b"LINE 0 k1 1 1 =b\nLAST 0 k1\n"),
    ];
    let door = Lines::new(alloc, &gives);
    let shut = is_shut(&rt, alloc, &stories, &[(OPEN, OPENED)], &door, &NoPause)?;
    assert!(rt; shut && one_has_its_command(&rt, &door));
    Ok(())
}

#[test]
fn a_link_is_answered_while_another_reply_is_held(rt: HostRuntime) -> Result<(), Fail> {
    let alloc = rt.alloc();
    let bytes = echo_story(alloc)?;
    let stories = [Story::of(&bytes).ok().ok_or("a story")?];
    let gives: [Option<&[u8]>; 2] = [Some(b"LAST 0 k1\n"), Some(b"LAST 0 k1\n")];
    let door = Lines::new(alloc, &gives);
    let pause = HeldReply::new(&door.hung_up);
    let shut = is_shut(&rt, alloc, &stories, &[(OPEN, OPENED)], &door, &pause)?;
    assert!(rt; shut && pause.is_met() && door.answered(&rt, OPENED) == 2);
    Ok(())
}

/// Whether one link was answered an a in session 0, and one a b in session 1.
fn both_are_answered<R: Wait>(rt: &R, door: &Lines<'_>) -> bool {
    door.answered(rt, A) == 1 && door.answered(rt, OTHER_B) == 1
}

#[test]
fn a_session_has_a_turn_while_another_one_is_held(rt: HostRuntime) -> Result<(), Fail> {
    let alloc = rt.alloc();
    let bytes = echo_story(alloc)?;
    let stories = [Story::of(&bytes).ok().ok_or("a story")?];
    let gives: [Option<&[u8]>; 2] = [Some(b"LINE 0 k1 1 1 =a\n"), Some(b"LINE 1 k2 1 1 =b\n")];
    let door = Lines::new(alloc, &gives);
    let pause = HeldTurn::new();
    let rows = [(OPEN, OPENED), (OTHER_OPEN, OTHER_OPENED)];
    let shut = is_shut(&rt, alloc, &stories, &rows, &door, &pause)?;
    assert!(rt; shut && pause.is_met() && both_are_answered(&rt, &door));
    Ok(())
}

#[test]
fn the_other_worker_goes_on_where_the_door_fails_for_one(rt: HostRuntime) -> Result<(), Fail> {
    let alloc = rt.alloc();
    let bytes = echo_story(alloc)?;
    let stories = [Story::of(&bytes).ok().ok_or("a story")?];
    let gives: [Option<&[u8]>; 3] = [Some(b"LAST 0 k1\n"), None, Some(b"LAST 0 k1\n")];
    let door = Lines::new(alloc, &gives);
    let shut = is_shut(&rt, alloc, &stories, &[(OPEN, OPENED)], &door, &NoPause)?;
    assert!(rt; !shut && door.answered(&rt, OPENED) == 2);
    Ok(())
}
