//! What ATTACH and DETACH come to.

ghost use Rattle.framebuffers.specs.Laws.{AttachesOne, DetachesOne, StaysSound, UnusedHasNone};

/// An accepted ATTACH was of a live display buffer, in which its framebuffer lies and is found under its cookie, and no other
/// cookie changes.
pub fn attaches_one()
    ensures { AttachesOne }
{}

/// After a DETACH the cookie is free, and no other cookie changes.
pub fn detaches_one()
    ensures { DetachesOne }
{}

/// At most 64 framebuffers are live, under different cookies, each with pixels of a known depth: an accepted ATTACH and a
/// DETACH keep it so.
pub fn stays_sound()
    ensures { StaysSound }
{}

/// No live framebuffer is of a display buffer that isn't used.
pub fn unused_has_none()
    ensures { UnusedHasNone }
{}
