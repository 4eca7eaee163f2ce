//! Framebuffers as the rules of the display see them.

use cookie_table::HasCookie;

/// A live framebuffer: a display buffer as it is to be shown, from its top left on.
#[derive(Clone, Copy, Debug, PartialEq, Eq)]
pub struct Framebuffer {
    /// The frontend's name for it.
    pub cookie: u64,
    /// The frontend's name for the display buffer.
    pub dbuf: u64,
    /// The width in pixels.
    pub width: u32,
    /// The height in pixels.
    pub height: u32,
    /// Bits for each pixel, as the display buffer has them.
    pub bpp: u32,
}

impl HasCookie for Framebuffer {
    ghost cookie_of = { λ f. f.cookie };

    fn cookie(&self) -> u64 {
        self.cookie
    }
}
