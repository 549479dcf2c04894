//! The image of a story: its file, whose header was checked.
#![tactic(auto)]

mod checksum;
mod fault;
mod header;
mod image;
mod laws;
mod layout;

pub use fault::ImageFault;
pub use image::Image;
pub use laws::accepts_images;
