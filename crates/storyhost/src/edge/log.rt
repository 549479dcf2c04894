//! What standard error is told while links are served: a line for each event, with its time.
use httpdate::HttpDate;
use std::env::{Env, FillError};
use std::fmt::Display;
use std::io::{self, Eprint, ErrorKind};
use std::sync::atomic::{AtomicU8, Ordering};
use std::time::{Clock, SystemTime};

/// The variable of the environment that says how much is told.
const AMOUNT: &str = "STORYHOST_LOG";

/// Nothing is told, or no links are served yet.
const NOTHING: u8 = 0;

/// Faults are told, and links that didn't end by themselves.
const FAULTS: u8 = 1;

/// Each link is told, too.
const LINKS: u8 = 2;

/// How much is told by that word.
fn amount_of(word: &[u8]) -> Option<u8> {
    match word {
        b"none" => Some(NOTHING),
        b"faults" => Some(FAULTS),
        b"links" => Some(LINKS),
        _ => None,
    }
}

/// A log of the events of this program. It tells nothing of what players type, nor of their keys.
#[derive(Drop)]
pub struct Log<'r, R> {
    rt: &'r R,
    amount: AtomicU8,
}

impl<'r, R> Log<'r, R> {
    /// One that tells nothing yet.
    pub fn new(rt: &'r R) -> Log<'r, R> {
        Log {
            rt,
            amount: AtomicU8::new(NOTHING),
        }
    }

    /// The system that it is of.
    pub fn rt(&self) -> &'r R {
        self.rt
    }
}

impl<'r, R: Clock + Eprint> Log<'r, R> {
    /// Now, in the spelling of HTTP, where the clock can be read.
    fn date(&self) -> Option<HttpDate> {
        HttpDate::try_from(SystemTime::now(self.rt).ok()?).ok()
    }

    /// Tells of an event, whatever is asked for.
    pub fn write<D: Display + Drop>(&self, event: D) {
        // Where standard error fails, too, nobody is left to be told.
        let _ = match self.date() {
            Some(date) => self.rt.eprintln(format_args!("{date} storyhost: {event}")),
            None => self.rt.eprintln(format_args!("storyhost: {event}")),
        };
    }

    /// Tells of a fault, or of a link that didn't end by itself.
    pub fn tell<D: Display + Drop>(&self, event: D) {
        if self.amount.load(Ordering::SeqCst) >= FAULTS {
            self.write(event);
        }
    }

    /// Tells of what becomes of each link.
    pub fn tell_of_link<D: Display + Drop>(&self, event: D) {
        if self.amount.load(Ordering::SeqCst) >= LINKS {
            self.write(event);
        }
    }
}

impl<'r, R: Env> Log<'r, R> {
    /// From now on it tells as much as the environment asks for.
    pub fn begin(&self) -> io::Result<()> {
        let mut word = [0; 8];
        let amount = match self.rt.var(AMOUNT, &mut word) {
            Err(FillError::NotPresent) => Some(FAULTS),
            Err(FillError::TooLong) => None,
            Ok(count) => amount_of(&word[..count]),
        };
        let Some(amount) = amount else {
            let message = "STORYHOST_LOG is none of the words none, faults and links";
            return Err(io::Error::new(ErrorKind::InvalidInput, message));
        };
        self.amount.store(amount, Ordering::SeqCst);
        Ok(())
    }
}
