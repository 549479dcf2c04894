//! Exit statuses.
ghost use Rattle.std.specs.Prelude.{◌≡◌, Some};

use crate::outside::Fetch;
use host_serve::{Door, Worked};
use line_talk::{Ended, Stop};

/// How the program ends.
#[derive(Clone, Copy, Debug, PartialEq, Eq)]
pub enum Status {
    /// The command was done: the input was read to its end, or the story is over.
    Done,
    /// The words aren't taken.
    BadWords,
    /// A story is refused, and a line says why.
    Refused,
    /// The input failed, or a file could not be read.
    ReadFault,
    /// The output failed.
    WriteFault,
    /// A disk failed, or the call that gives it.
    DiskFault,
    /// Memory was wanted.
    NoMemory,
    /// What the folder holds is refused, and a line says why.
    BadFolder,
    /// A door failed, or the call that gives it.
    DoorFault,
    /// A connection's limit of lines or bytes was reached.
    LineLimit,
}

impl Status {
    ghost use Rattle.host_top.specs.Status.{status_of, status_of_end, status_of_stop};
    ghost use Rattle.host_top.specs.Status.{status_of_fetch, status_of_worked};

    /// That of a conversation, as one with a host.
    pub fn of_end(ended: Ended) -> Status
        ensures { result ≡ status_of_end ended }
    {
        match ended {
            Ended::End => Status::Done,
            Ended::ReadFault => Status::ReadFault,
            Ended::WriteFault => Status::WriteFault,
            Ended::NoMemory => Status::NoMemory,
            Ended::LineLimit => Status::LineLimit,
        }
    }

    /// That of the work at a door.
    pub fn of_worked<O: Door>(how: &Worked<O>) -> Status
        ensures { result ≡ status_of_worked how.now }
    {
        match how {
            Worked::Shut(_) => Status::Done,
            Worked::DoorFault(_) => Status::DoorFault,
        }
    }

    /// That of a text that was not written whole.
    pub fn of_stop(stop: Stop) -> Status
        ensures { result ≡ status_of_stop stop }
    {
        Status::of_end(stop.ended())
    }

    /// That of a disk that the outside doesn't lend.
    pub fn of_fetch(why: Fetch) -> Status
        ensures { result ≡ status_of_fetch why }
    {
        match why {
            Fetch::Failed => Status::DiskFault,
            Fetch::NoMemory => Status::NoMemory,
        }
    }

    /// The exit code.
    pub fn code(self) -> u8
        ensures { status_of result ≡ Some self }
    {
        match self {
            Status::Done => 0,
            Status::BadWords => 2,
            Status::Refused => 3,
            Status::ReadFault => 4,
            Status::WriteFault => 5,
            Status::DiskFault => 6,
            Status::NoMemory => 7,
            Status::BadFolder => 8,
            Status::DoorFault => 9,
            Status::LineLimit => 10,
        }
    }
}
