//! Why a file is no image.

ghost use Rattle.std.specs.Prelude.{◌≡◌};
ghost use Rattle.glulx_image.specs.Fault.{image_fault_number};

/// The first check that a file failed.
#[derive(Clone, Copy, Debug, PartialEq, Eq, thiserror::Error)]
pub enum ImageFault {
    /// Fewer bytes than a header, or than EXTSTART names.
    #[error("the file is too short")]
    Short,
    /// The first four bytes aren't `Glul`.
    #[error("the file is no Glulx story")]
    Magic,
    /// A version below 2.0.0 or above 3.1.255.
    #[error("the version isn't known")]
    Version,
    /// A segment boundary that isn't whole pages, or boundaries out of order.
    #[error("the memory map is out of order")]
    Layout,
    /// More than this host takes.
    #[error("the story is too large")]
    TooLarge,
}

impl ImageFault {
    /// The check's number, 1 to 5.
    pub fn number(self) -> u8
        ensures value { result ≡ image_fault_number self }
    {
        match self {
            ImageFault::Short => 1,
            ImageFault::Magic => 2,
            ImageFault::Version => 3,
            ImageFault::Layout => 4,
            ImageFault::TooLarge => 5,
        }
    }
}
