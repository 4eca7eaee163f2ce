// The checks of an ATTACH that look at its fields and its display buffer.

ghost use Rattle.std.specs.Prelude.{◌≡◌};
ghost use Rattle.framebuffers.specs.Frames.{fits_in, has_bits};

use displ_wire::{Attach, Buffer};

// The pixel formats of `drm_fourcc.h` that are accepted: eight bits each for red, green and blue in words of 32 bits, the
// same with eight bits of alpha, the same in 24 bits, and five, six and five bits in 16.
const XR24: u32 = 0x3432_5258;

const AR24: u32 = 0x3432_5241;

const RG24: u32 = 0x3432_4752;

const RG16: u32 = 0x3631_4752;

// Whether pixels of this format take so many bits.
fn is_of_depth(format: u32, bits: u32) -> bool
    ensures { result ≡ has_bits format bits }
{
    match format {
        XR24 | AR24 => bits == 32,
        RG24 => bits == 24,
        RG16 => bits == 16,
        _ => false,
    }
}

// Whether the framebuffer that is asked for lies in this display buffer.
pub(crate) fn is_valid(a: &Attach, b: &Buffer) -> bool
    ensures { result ≡ fits_in a.now b.now }
{
    is_of_depth(a.pixel_format, b.bpp)
        && a.width > 0
        && a.height > 0
        && a.width <= b.width
        && a.height <= b.height
}
