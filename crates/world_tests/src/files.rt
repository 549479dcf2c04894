use host_world::{Event, HostState, Images, follow};
use line_words::write_reply;
use session_core::Sessions;
use std::alloc::Global;
use std::test::{Fail, *};
use store_events::StoreState;
use story_make::echo_story;
use story_run::Story;
use story_text::Bytes;

// A turn's ticks.
const BUDGET: u64 = 50_000_000;

// A journal without rows.
const JOURNAL: [u8; 17] = *b"STHJ\x00\x00\x00\x01\x01\x00\x00\x00\x00\x00\x00\x00\x00";

// How a new snapshot file begins; 4,088 zeros follow.
const FRONT: [u8; 8] = *b"STHS\x00\x00\x00\x01";

fn bytes(alloc: Global, list: &[u8]) -> Result<Bytes, Fail> {
    Ok(Bytes::of(Vec::from_slice(alloc, list)?))
}

fn new_file(alloc: Global) -> Result<Bytes, Fail> {
    let mut file = Vec::from_slice(alloc, &FRONT)?;
    for _ in 0..4088 {
        file.push(0)?;
    }
    Ok(Bytes::of(file))
}

// A host that is down over a new journal and 64 new files.
fn new_host(alloc: Global) -> Result<HostState, Fail> {
    let mut files = Vec::new(alloc);
    for _ in 0..64_u8 {
        files.push(new_file(alloc)?)?;
    }
    Ok(HostState::down(alloc, bytes(alloc, &JOURNAL)?, files)?)
}

// A disk's next calls, so many, all good.
fn call(alloc: Global, events: &mut Vec<Event>, disk: u8, calls: u8) -> Result<(), Fail> {
    for _ in 0..calls {
        events.push(Event::Call {
            disk,
            good: true,
            reads: bytes(alloc, b"")?,
        })?;
    }
    Ok(())
}

// The journal is opened, and then each file.
fn open(alloc: Global, events: &mut Vec<Event>) -> Result<(), Fail> {
    events.push(Event::Recover)?;
    call(alloc, events, 0, 3)?;
    for disk in 1..=64 {
        call(alloc, events, disk, 5)?;
    }
    Ok(())
}

// A line's turn of session 0, with a put where one is due.
fn turn(alloc: Global, events: &mut Vec<Event>, line: &[u8]) -> Result<(), Fail> {
    events.push(Event::Take {
        s: 0,
        pass: 1,
        line: bytes(alloc, line)?,
    })?;
    events.push(Event::Hold { s: 0 })?;
    call(alloc, events, 0, 4)?;
    events.push(Event::Free { s: 0 })?;
    events.push(Event::Run { s: 0, found: true })?;
    events.push(Event::Keep { s: 0 })?;
    call(alloc, events, 1, 7)?;
    events.push(Event::Accept { s: 0 })?;
    events.push(Event::Give { s: 0 })?;
    Ok(())
}

// The line of this number: the one that opens the session, or an input.
fn line_of(alloc: Global, n: u8) -> Result<Vec<u8>, Fail> {
    if n == 0 {
        return Ok(Vec::from_slice(alloc, b"OPEN 0 k1 0 7 80 24")?);
    }
    let mut line = Vec::from_slice(alloc, b"LINE 0 k1 ")?;
    if n > 9 {
        line.push(b'0' + n / 10)?;
    }
    line.push(b'0' + n % 10)?;
    line.extend_from_slice(b" 1 =go")?;
    Ok(line)
}

// The replies that a host has given.
fn replies(alloc: Global, host: &HostState) -> Result<Vec<u8>, Fail> {
    let mut replies = Vec::new(alloc);
    for given in host.replies() {
        replies.extend_from_slice(&write_reply(alloc, &given.reply)?)?;
    }
    Ok(replies)
}

// Those of a plain session to the first lines.
fn wanted(alloc: Global, stories: &[Story], lines: u8) -> Result<Vec<u8>, Fail> {
    let mut sessions = Sessions::new(alloc)?;
    let mut wanted = Vec::new(alloc);
    for n in 0..lines {
        let reply = sessions.answer(alloc, stories, BUDGET, &line_of(alloc, n)?)?;
        wanted.extend_from_slice(&write_reply(alloc, &reply)?)?;
    }
    Ok(wanted)
}

// A host that was opened and has answered the line that opens a session, and 16 inputs.
fn played(alloc: Global, stories: &[Story]) -> Result<HostState, Fail> {
    let mut events = Vec::new(alloc);
    open(alloc, &mut events)?;
    for n in 0..17 {
        turn(alloc, &mut events, &line_of(alloc, n)?)?;
    }
    Ok(follow(alloc, stories, BUDGET, new_host(alloc)?, &events)?)
}

// An area as the first one begins: the place of its OPEN row, and 16 inputs.
const HEAD: [u8; 12] = [0, 0, 0, 0, 0, 0, 0, 16, 0, 0, 0, 16];

// Area A of the file is open, and begins so.
fn has_snapshot(file: Option<&StoreState>) -> bool {
    let Some(file) = file else {
        return false;
    };
    let bytes = file.seen();
    match bytes.get(4096..4108) {
        Some(head) => head == HEAD.as_slice() && bytes.get(10) == Some(&1),
        None => false,
    }
}

// What its disks read as: the journal's, and then the files'.
fn images_of(alloc: Global, host: &HostState) -> Result<Images, Fail> {
    let mut images = Vec::new(alloc);
    images.push(bytes(alloc, host.host().journal())?)?;
    for file in host.files() {
        images.push(bytes(alloc, file.seen())?)?;
    }
    Ok(Images::of(images))
}

// Whether the first session alone has a snapshot.
fn has_one_snapshot(host: &HostState) -> bool {
    has_snapshot(host.files().first()) && !has_snapshot(host.files().last())
}

#[test]
fn a_host_with_files_has_a_snapshot_and_goes_on_behind_a_stop(rt: HostRuntime) -> Result<(), Fail> {
    let alloc = rt.alloc();
    let image = echo_story(alloc)?;
    let stories = [Story::of(&image).ok().ok_or("a story")?];
    let host = played(alloc, &stories)?;
    let is_put = has_one_snapshot(&host);
    let mut events = Vec::new(alloc);
    events.push(Event::Stop {
        images: images_of(alloc, &host)?,
    })?;
    open(alloc, &mut events)?;
    turn(alloc, &mut events, &line_of(alloc, 17)?)?;
    let host = follow(alloc, &stories, BUDGET, host, &events)?;
    assert!(rt; is_put && replies(alloc, &host)? == wanted(alloc, &stories, 18)?);
    Ok(())
}
