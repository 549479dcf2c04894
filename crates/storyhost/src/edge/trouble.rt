//! What went wrong, for whoever reads standard error.
use blorb_read::{BlorbFault, find_story};
use glulx_image::{Image, ImageFault};
use host_top::Status;
use std::{fmt, io};

/// The greatest version of the Z-machine.
const LAST_OF_Z: u8 = 8;

/// What was met first: what the system said, or why a file is no story.
#[derive(Drop)]
enum Cause {
    System(io::Error),
    Image(ImageFault),
    Container(BlorbFault),
    /// It is a story for the Z-machine, of this version.
    ZMachine(u8),
}

impl fmt::Display for Cause {
    fn fmt<W: fmt::Write>(&self, f: &mut fmt::Formatter<W>) -> fmt::Result {
        match self {
            Cause::System(error) => write!(f, "{error}"),
            Cause::Image(fault) => write!(f, "{fault}"),
            Cause::Container(fault) => write!(f, "{fault}"),
            Cause::ZMachine(version) => {
                write!(
                    f,
                    "it is for the Z-machine, version {version}, and only Glulx is played"
                )
            }
        }
    }
}

/// The version of the Z-machine that a file names which is no image.
fn version_of_z(bytes: &[u8]) -> Option<u8> {
    let version = *bytes.first()?;
    (1..=LAST_OF_Z).contains(&version).then_some(version)
}

/// Why an image is refused, where it is.
fn image_cause(image: &[u8]) -> Option<Cause> {
    match Image::parse(image) {
        Ok(_) => None,
        Err(fault) => Some(Cause::Image(fault)),
    }
}

/// Why the bytes of a file are no story, where they aren't.
fn story_cause(bytes: &[u8]) -> Option<Cause> {
    if bytes.starts_with(b"FORM") {
        return match find_story(bytes) {
            Ok(span) => image_cause(&bytes[span.start..span.start + span.length]),
            Err(fault) => Some(Cause::Container(fault)),
        };
    }
    let cause = image_cause(bytes)?;
    match version_of_z(bytes) {
        Some(version) => Some(Cause::ZMachine(version)),
        None => Some(cause),
    }
}

/// Why a command ended so: a file's name, where it was one, and the cause.
#[derive(Drop)]
pub struct Trouble {
    status: Status,
    name: Option<String>,
    cause: Cause,
}

impl Trouble {
    /// A call failed, for which a command ends with this status.
    pub fn new(status: Status, cause: io::Error) -> Trouble {
        Trouble {
            status,
            name: None,
            cause: Cause::System(cause),
        }
    }

    /// The same, of the file of that name.
    pub fn of_name(status: Status, name: String, cause: io::Error) -> Trouble {
        Trouble {
            status,
            name: Some(name),
            cause: Cause::System(cause),
        }
    }

    /// The file of that name, which has these bytes, is no story.
    pub fn of_story(name: String, bytes: &[u8]) -> Option<Trouble> {
        let cause = story_cause(bytes)?;
        Some(Trouble {
            status: Status::Refused,
            name: Some(name),
            cause,
        })
    }

    /// Whether a command that ended with this code ended for it.
    pub fn is_of(&self, code: u8) -> bool {
        self.status.code() == code
    }
}

impl fmt::Display for Trouble {
    fn fmt<W: fmt::Write>(&self, f: &mut fmt::Formatter<W>) -> fmt::Result {
        match &self.name {
            Some(name) => write!(f, "{name}: {}", self.cause),
            None => write!(f, "{}", self.cause),
        }
    }
}
