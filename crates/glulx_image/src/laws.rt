//! A law of images.

ghost use Rattle.glulx_image.specs.Laws.{AcceptsImages};

/// A file is an image exactly where its header keeps the five checks.
pub fn accepts_images()
    ensures { AcceptsImages }
{}
