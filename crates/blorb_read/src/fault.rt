//! Why no story is found in a file.

ghost use Rattle.std.specs.Prelude.{◌≡◌};
ghost use Rattle.blorb_read.specs.Fault.{container_fault_number};

/// The first cause against a container.
#[derive(Clone, Copy, Debug, PartialEq, Eq, thiserror::Error)]
pub enum BlorbFault {
    /// No form of type `IFRS` that begins with a resource index.
    #[error("the file is no Blorb container")]
    NotBlorb,
    /// The chunk at this place passes the file, or the resource index is shorter than its entries.
    #[error("the chunk at {0} passes the file")]
    Cut(usize),
    /// No entry of usage `Exec` and number 0.
    #[error("the container names no story")]
    NoExec,
    /// The story's chunk isn't `GLUL`.
    #[error("the container's story is no Glulx story")]
    NotGlulx,
}

impl BlorbFault {
    /// The cause's number, 1 to 4.
    pub fn number(self) -> u8
        ensures value { result ≡ container_fault_number self }
    {
        match self {
            BlorbFault::NotBlorb => 1,
            BlorbFault::Cut(_) => 2,
            BlorbFault::NoExec => 3,
            BlorbFault::NotGlulx => 4,
        }
    }
}
