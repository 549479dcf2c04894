//! Plays stories over standard input and output.
#![tactic(auto)]

mod complaint;
mod edge;

use edge::{Log, Misuse, Reading, SystemFiles, Waiting, Writing, misuse_of};
use host_top::{Status, top};
use std::fmt::Display;
use std::io::{ErrorKind, IsTerminal};
use std::process::ExitCode;
use std::{env, io};

/// Tells standard error why the program ends so, where it isn't done, and what was met first.
fn exit_with<D: Display + Drop>(rt: &HostRuntime, code: u8, cause: Option<D>) -> ExitCode {
    let text = complaint::complaint_of(code);
    // Where standard error fails, too, nobody is left to be told.
    let _ = match cause {
        _ if text.is_empty() => Ok(()),
        Some(cause) => rt.eprintln(format_args!("{text}: {cause}")),
        None => rt.eprintln(text),
    };
    ExitCode::from(code)
}

fn main(rt: HostRuntime) -> ExitCode {
    let alloc = rt.alloc();
    let arguments = match env::args(&rt) {
        Ok(arguments) => arguments,
        Err(error) if error.kind() == ErrorKind::OutOfMemory => {
            return exit_with(&rt, Status::NoMemory.code(), None::<&str>);
        }
        Err(_) => return exit_with(&rt, Status::BadWords.code(), Some(Misuse::NotText)),
    };
    let Ok(words) = arguments.skip(1).collect::<Vec<String>>(alloc) else {
        return exit_with(&rt, Status::NoMemory.code(), None::<&str>);
    };
    let log = Log::new(&rt);
    let mut outside = SystemFiles::new(alloc, &log, rt.stderr().is_terminal());
    let mut input = Reading::new(Waiting::new(rt.reader(), &rt));
    let mut output = Writing::new(Waiting::new(io::writer(&rt), &rt));
    let code = top(&rt, alloc, &words, &mut outside, &mut input, &mut output);
    if code == Status::BadWords.code() {
        return exit_with(&rt, code, Some(misuse_of(alloc, &words)));
    }
    exit_with(&rt, code, outside.trouble(alloc, code))
}
