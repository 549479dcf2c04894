//! A script's lines (own).

ghost use Rattle.std.specs.Prelude.{◌≡◌, ◌<◌, ◌++◌, OnOk};
ghost use Rattle.story_make.specs.Script.{letter, letters, line_of_request, opening_request};
ghost use Rattle.story_make.specs.Lines.{request_for, command_front};

use std::alloc::{AllocError, Global};

/// A line of a script.
#[derive(Clone, Copy)]
pub enum Line {
    /// The session is opened with the script's number.
    Open { number: u64 },
    /// A command with this number, which leaves one out.
    Skip { n: u64 },
    /// The next command, which has this number, with the letters of a word.
    Next { n: u64, word: u32 },
}

/// Letter i, counted from 0, of the text that the word stands for.
fn letter(word: u32, i: u32) -> u8
    requires { i < 19 }
    ensures { result ≡ letter word i }
{
    b'a' + (word / (i + 1) % 26) as u8
}

/// The text that the word stands for.
fn push_letters(out: &mut Vec<u8>, word: u32) -> Result<(), AllocError>
    ensures { OnOk result (out.new.items ≡ out.old.items ++ letters word) }
{
    for i in 0..word / 10 % 19 + 1 {
        out.push(letter(word, i))?;
    }
    Ok(())
}

/// What stands before the letters of a command's line.
fn push_command(out: &mut Vec<u8>, alloc: Global, session: u8, n: u64) -> Result<(), AllocError>
    ensures { OnOk result (out.new.items ≡ out.old.items ++ command_front session n) }
{
    let front = format!(in alloc; "LINE {session} k {n} 1 =")?;
    out.extend_from_slice(front.as_bytes())
}

fn push_open(out: &mut Vec<u8>, alloc: Global, session: u8, number: u64) -> Result<(), AllocError>
    ensures { OnOk result
        (out.new.items ≡ out.old.items ++ line_of_request (opening_request number session)) }
{
    let line = format!(in alloc; "OPEN {session} k 0 {number} 80 24\n")?;
    out.extend_from_slice(line.as_bytes())
}

/// The line with its LF.
pub fn push_line(
    out: &mut Vec<u8>,
    alloc: Global,
    session: u8,
    line: Line,
) -> Result<(), AllocError>
    ensures { OnOk result
        (out.new.items ≡ out.old.items ++ line_of_request (request_for session line)) }
{
    match line {
        Line::Open { number } => push_open(out, alloc, session, number)?,
        Line::Skip { n } => {
            push_command(out, alloc, session, n)?;
            out.extend_from_slice(b"x\n")?;
        }
        Line::Next { n, word } => {
            push_command(out, alloc, session, n)?;
            push_letters(out, word)?;
            out.push(b'\n')?;
        }
    }
    Ok(())
}
