//! How long the program waits for others.
use std::env::{Env, FillError};
use std::io::{self, ErrorKind};
use std::thread;
use std::time::{Clock, Duration};

/// The variable of the environment that says how many seconds a link may send nothing.
const IDLE: &str = "STORYHOST_IDLE_SECONDS";

/// The same, where nothing says it.
const USUAL_IDLE: u64 = 600;

/// The greatest number that it may say, a day.
const MOST_IDLE: u64 = 86_400;

/// How many seconds a link may take nothing that is written to it, at most.
const MOST_DEAF: u64 = 60;

/// Milliseconds between a call that can't be served now and the next try.
const PAUSE: u64 = 50;

/// How long a link may send nothing, and how long it may take nothing.
#[derive(Clone, Copy)]
pub struct Patience {
    pub idle: Duration,
    pub deaf: Duration,
}

/// Waits a little, until a call may be served that can't be now.
pub fn pause<C: Clock>(clock: &C) {
    thread::sleep(clock, Duration::from_millis(PAUSE));
}

/// The number of seconds that these bytes spell.
fn seconds(text: &[u8]) -> Option<u64> {
    let seconds = str::from_utf8(text).ok()?.parse().ok()?;
    (1..=MOST_IDLE).contains(&seconds).then_some(seconds)
}

impl Patience {
    /// The usual one, or that which the environment says.
    pub fn of<R: Env>(rt: &R) -> io::Result<Patience> {
        let mut text = [0; 8];
        let idle = match rt.var(IDLE, &mut text) {
            Err(FillError::NotPresent) => Some(USUAL_IDLE),
            Err(FillError::TooLong) => None,
            Ok(count) => seconds(&text[..count]),
        };
        let Some(idle) = idle else {
            let message = "STORYHOST_IDLE_SECONDS is no number of seconds from 1 to 86400";
            return Err(io::Error::new(ErrorKind::InvalidInput, message));
        };
        Ok(Patience {
            idle: Duration::from_secs(idle),
            deaf: Duration::from_secs(idle.min(MOST_DEAF)),
        })
    }
}
