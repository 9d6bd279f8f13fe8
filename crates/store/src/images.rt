//! What a table leads to is one image, and it stays.
ghost use Rattle.store.specs.Images.{OneImage, ImagesStay};

/// Says, for every store, that a table leads to at most one image, and that it leads to this one as long as all that
/// stood stands. The call does nothing else.
pub fn one_image()
    ensures one { OneImage }
    ensures stays { ImagesStay }
{}
