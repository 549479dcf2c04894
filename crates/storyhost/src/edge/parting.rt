//! How a link ended, in words.
use super::patience::Patience;
use host_serve::Served;
use std::fmt;
use std::io::{self, ErrorKind};
use std::time::Duration;

/// The end of a link: which of its door's links it was, and why its last call failed where one did.
#[derive(Drop)]
pub struct Parting {
    pub number: u64,
    pub how: Served,
    pub error: Option<io::Error>,
    pub patience: Patience,
}

/// Writes why a call of a link failed that may wait so long. It `did` nothing, where that is why.
fn write_failure<W: fmt::Write>(
    f: &mut fmt::Formatter<W>,
    did: &str,
    wait: Duration,
    error: &io::Error,
) -> fmt::Result {
    match error.kind() {
        ErrorKind::WouldBlock | ErrorKind::TimedOut => {
            write!(f, "it {did} nothing for {} s", wait.as_secs())
        }
        ErrorKind::InvalidData => f.write_str("it speaks HTTP or TLS, so it is no client's"),
        _ => write!(f, "{error}"),
    }
}

impl fmt::Display for Parting {
    fn fmt<W: fmt::Write>(&self, f: &mut fmt::Formatter<W>) -> fmt::Result {
        if self.how == Served::End {
            return write!(f, "link {} has ended", self.number);
        }
        write!(f, "link {} is let go: ", self.number)?;
        match (&self.error, self.how) {
            (_, Served::NoMemory) => f.write_str("there is too little memory"),
            (_, Served::LineLimit) => f.write_str("it has sent as many lines or bytes as one may"),
            (Some(error), Served::WriteFault) => {
                write_failure(f, "took", self.patience.deaf, error)
            }
            (Some(error), _) => write_failure(f, "sent", self.patience.idle, error),
            (None, _) => f.write_str("it takes nothing"),
        }
    }
}
