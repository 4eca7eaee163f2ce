//! What a connector shows, beside the live framebuffers.

ghost use Rattle.connectors.specs.Laws.{FlipsWait, PicturesInside, StaysSound};

/// The cookie that a connector shows, and that of a flip whose mark stands, is a live framebuffer in which the rectangle lies,
/// with as many bits a pixel: it is so at first, and what an ATTACH does (no framebuffer goes or changes), a DETACH (none changes
/// but that of its cookie), an accepted SET_CONFIG or FLIP, and a blank keep it so.
pub fn stays_sound()
    ensures { StaysSound }
{}

/// A picture has pixels, and lies in a live framebuffer.
pub fn pictures_inside()
    ensures { PicturesInside }
{}

/// A flip is accepted only where none is pending. It is pending then, whatever is configured or detached, until its blank.
pub fn flips_wait()
    ensures { FlipsWait }
{}
