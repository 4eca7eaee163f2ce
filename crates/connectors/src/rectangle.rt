//! Rectangles of framebuffers.

use displ_wire::{Config, Framebuffer};

/// The part of a framebuffer that a connector shows.
#[derive(Clone, Copy, Debug, PartialEq, Eq)]
pub struct Rectangle {
    /// The left edge, in pixels.
    pub x: u32,
    /// The top edge, in pixels.
    pub y: u32,
    /// The width in pixels.
    pub width: u32,
    /// The height in pixels.
    pub height: u32,
    /// Bits for each pixel.
    pub bpp: u32,
}

impl Rectangle {
    ghost use Rattle.std.specs.Prelude.{◌≡◌};
    ghost use Rattle.connectors.specs.Connectors.{has_area, lies_in, rectangle_of};

    // The rectangle of a configuration.
    pub(crate) fn of(c: &Config) -> Rectangle
        ensures { result ≡ rectangle_of c.now }
    {
        Rectangle {
            x: c.x,
            y: c.y,
            width: c.width,
            height: c.height,
            bpp: c.bpp,
        }
    }

    // Whether it has pixels.
    pub(crate) fn has_area(&self) -> bool
        ensures { result ≡ has_area self.now }
    {
        self.width > 0 && self.height > 0
    }

    // Whether it lies in a framebuffer of as many bits a pixel.
    pub(crate) fn lies_in(&self, f: &Framebuffer) -> bool
        ensures { result ≡ lies_in self.now f.now }
    {
        let right = u64::from(self.x) + u64::from(self.width);
        let bottom = u64::from(self.y) + u64::from(self.height);
        right <= u64::from(f.width) && bottom <= u64::from(f.height) && self.bpp == f.bpp
    }
}
