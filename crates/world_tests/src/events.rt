use disk_model::MemDisk;
use gate_journal::init;
use host_top::{MemoryOutside, top};
use host_world::{JournalEvent, JournalHost, follow_journal};
use line_talk::{MemorySink, MemorySource};
use line_words::write_reply;
use std::alloc::Global;
use std::collections::BTreeMap;
use std::sync::Wait;
use std::test::{Fail, *};
use std::thread::Threads;
use story_make::{echo_story, script};
use story_run::Story;
use story_text::Bytes;

// A turn's ticks.
const BUDGET: u64 = 50_000_000;

// How many turns a script has behind its first line.
const TURNS: u32 = 99;

// A journal without rows.
const JOURNAL: [u8; 17] = *b"STHJ\x00\x00\x00\x01\x01\x00\x00\x00\x00\x00\x00\x00\x00";

fn bytes(alloc: Global, list: &[u8]) -> Result<Bytes, Fail> {
    Ok(Bytes::of(Vec::from_slice(alloc, list)?))
}

// A line of the script of a session: the one that opens it, or the one of a turn.
fn script_line(alloc: Global, s: u8, at: u32) -> Result<Vec<u8>, Fail> {
    let script = script(alloc, 7, s, TURNS)?;
    let mut lines = script.split(|byte| *byte == b'\n');
    let line = lines.nth(at as usize).ok_or("a line")?;
    Ok(Vec::from_slice(alloc, line)?)
}

// The first lines of the eight scripts, then the second ones, and so on.
fn script_lines(alloc: Global) -> Result<Vec<Vec<u8>>, Fail> {
    let mut lines = Vec::new(alloc);
    for at in 0..=TURNS {
        for s in 0..8 {
            lines.push(script_line(alloc, s, at)?)?;
        }
    }
    Ok(lines)
}

// A call of the journal's disk that is good.
fn good_call(alloc: Global) -> Result<JournalEvent, Fail> {
    Ok(JournalEvent::Call {
        disk: 0,
        good: true,
        reads: bytes(alloc, b"")?,
    })
}

// An event of an opening of a journal with a closed gate: it syncs, asks the size and reads.
fn opening_event(alloc: Global, at: u8) -> Result<JournalEvent, Fail> {
    match at {
        0 => Ok(JournalEvent::Recover),
        _ => good_call(alloc),
    }
}

// An event of a line's turn, in which nothing goes wrong. Where the line makes the session accept
// nothing, the events between the first and the last aren't enabled.
fn turn_event(alloc: Global, s: u8, line: &[u8], at: u8) -> Result<JournalEvent, Fail> {
    match at {
        0 => Ok(JournalEvent::Take {
            s,
            pass: 1,
            line: bytes(alloc, line)?,
        }),
        1 => Ok(JournalEvent::Hold { s }),
        6 => Ok(JournalEvent::Free { s }),
        7 => Ok(JournalEvent::Run { s, found: true }),
        8 => Ok(JournalEvent::Accept { s }),
        9 => Ok(JournalEvent::Give { s }),
        _ => good_call(alloc),
    }
}

// An opening, and then the turns of these lines, of the eight sessions in turn.
fn events(alloc: Global, lines: &[Vec<u8>]) -> Result<Vec<JournalEvent>, Fail> {
    let mut events = Vec::new(alloc);
    for at in 0..4 {
        events.push(opening_event(alloc, at)?)?;
    }
    for (k, line) in lines.iter().enumerate() {
        for at in 0..10 {
            events.push(turn_event(alloc, (k % 8) as u8, line, at)?)?;
        }
    }
    Ok(events)
}

// The replies that a host gives from the start, over a journal without rows.
fn replies(alloc: Global, stories: &[Story], events: &[JournalEvent]) -> Result<Vec<u8>, Fail> {
    let host = JournalHost::down(alloc, &bytes(alloc, &JOURNAL)?)?;
    let host = follow_journal(alloc, stories, BUDGET, host, events)?;
    let mut replies = Vec::new(alloc);
    for given in host.replies() {
        replies.extend_from_slice(&write_reply(alloc, &given.reply)?)?;
    }
    Ok(replies)
}

// What a host of the program writes to these lines, over a journal without rows.
fn host_replies<R: Threads + Wait + Sync>(
    rt: &R,
    alloc: Global,
    story: &[u8],
    lines: &[Vec<u8>],
) -> Result<Vec<u8>, Fail> {
    let mut files = BTreeMap::new(alloc);
    files.insert(String::from_str(alloc, "echo.ulx")?, story.to_vec(alloc)?)?;
    let none = Vec::new(alloc);
    let mut outside = MemoryOutside::new(alloc, files, none, Vec::new(alloc), Vec::new(alloc));
    let mut disk = MemDisk::new(alloc);
    init(&mut disk).ok().ok_or("init")?;
    outside.hold(alloc, "d/journal", disk)?;
    let mut words = Vec::new(alloc);
    for word in ["pipe", "d", "echo.ulx"] {
        words.push(String::from_str(alloc, word)?)?;
    }
    let mut text = Vec::new(alloc);
    for line in lines {
        text.extend_from_slice(line)?;
        text.push(b'\n')?;
    }
    let mut input = MemorySource::new(text, 4096, Vec::new(alloc));
    let mut output = MemorySink::new(alloc, 4096, Vec::new(alloc));
    if top(rt, alloc, &words, &mut outside, &mut input, &mut output) != 0 {
        return Err("a host that ends otherwise".into());
    }
    Ok(output.bytes().to_vec(alloc)?)
}

#[test]
fn eight_scripts_in_turn_are_answered_as_by_a_host(rt: HostRuntime) -> Result<(), Fail> {
    let alloc = rt.alloc();
    let file = echo_story(alloc)?;
    let stories = [Story::of(&file).ok().ok_or("a story")?];
    let lines = script_lines(alloc)?;
    let given = replies(alloc, &stories, &events(alloc, &lines)?)?;
    assert!(rt; given == host_replies(&rt, alloc, &file, &lines)?);
    Ok(())
}
