//! The framebuffers of a display: which are live, and the checks of an ATTACH and a DETACH. A framebuffer has no pixels of
//! its own: it says how those of a display buffer are read.
#![tactic(auto)]

mod format;
mod frames;
mod laws;

pub use displ_wire::Framebuffer;
pub use frames::Frames;
pub use laws::{attaches_one, detaches_one, stays_sound, unused_has_none};

#[cfg(test)]
mod tests;
