//! A case, as a line gives it.

use std::alloc::{AllocError, Global};

/// A piece of work, which of its device calls fail, and the choice of a stop.
#[derive(Drop)]
pub struct Case<'a> {
    pub work: &'a str,
    pub fails: Vec<u64>,
    pub choice: u64,
}

/// The words of a line; a number that can't be read is 0 as a choice, and left out as a call.
pub fn read_case(alloc: Global, line: &str) -> Result<Case<'_>, AllocError> {
    let mut words = line.split(' ');
    let work = words.next().unwrap_or("");
    let mut fails = Vec::new(alloc);
    for number in words.next().unwrap_or("").split(',') {
        if let Ok(call) = number.parse() {
            fails.push(call)?;
        }
    }
    let choice = words.next().unwrap_or("").parse().unwrap_or(0);
    Ok(Case {
        work,
        fails,
        choice,
    })
}
