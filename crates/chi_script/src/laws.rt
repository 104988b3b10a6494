//! A law of images. Its function does nothing: its contract is the law, for proofs that call it.

ghost use Rattle.chi_script.specs.ImageLaws.{ImageHasBytes};

/// The words of an image are as many as its granules, and have the bytes of its text, in address order.
pub fn image_has_bytes()
    ensures { ImageHasBytes }
{}
