// The check of a CREATE that looks at its fields alone.

ghost use Rattle.std.specs.Prelude.{◌≡◌};
ghost use Rattle.display_buffers.specs.Buffers.{is_in_range, made_of};

use displ_wire::Create;

// The largest buffer, in octets.
const SIZE_LIMIT: u32 = 33_554_432;

// Whether depth, sides and size of a buffer are in their ranges, and its pixels fit in it.
pub(crate) fn is_valid(c: &Create) -> bool
    ensures { result ≡ is_in_range (made_of c.now) }
{
    if c.bpp != 16 && c.bpp != 24 && c.bpp != 32 {
        return false;
    }
    if c.width == 0 || c.height == 0 || c.buffer_sz == 0 || c.buffer_sz > SIZE_LIMIT {
        return false;
    }
    let pixels = u64::from(c.width) * u64::from(c.height);
    u128::from(pixels) * u128::from(c.bpp) / 8 <= u128::from(c.buffer_sz)
}
