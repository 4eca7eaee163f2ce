//! Display buffers as the rules of the display see them, and why a request is refused.

ghost use Rattle.std.specs.Prelude.{◌≡◌};
ghost use Rattle.displ_wire.specs.Refused.{status_of};

/// A display buffer that stands.
#[derive(Clone, Copy, Debug, PartialEq, Eq)]
pub struct Buffer {
    /// The frontend's name for it.
    pub cookie: u64,
    /// The width in pixels.
    pub width: u32,
    /// The height in pixels.
    pub height: u32,
    /// Bits for each pixel.
    pub bpp: u32,
    /// The size in octets.
    pub buffer_sz: u32,
}

/// Why a request isn't met.
#[derive(Clone, Copy, Debug, PartialEq, Eq)]
pub enum Refused {
    /// The operation, or what it asks for, isn't offered.
    NotSupported,
    /// The cookie is in use.
    Exists,
    /// There is no room for one more.
    Full,
    /// A field is out of its range.
    Invalid,
    /// The cookie names nothing.
    Unknown,
    /// A framebuffer of this cookie is attached to the display buffer.
    InUse(u64),
    /// A flip to the framebuffer of this cookie is still to come.
    Pending(u64),
}

// The errors of Xen's `errno.h` as a reply gives them.
const ENOENT: i32 = -2;

const EBUSY: i32 = -16;

const EEXIST: i32 = -17;

const EINVAL: i32 = -22;

const ENOSPC: i32 = -28;

const EOPNOTSUPP: i32 = -95;

impl Refused {
    /// The status of the reply that refuses a request for this reason: the negative number of an error.
    pub fn status(&self) -> i32
        ensures { result ≡ status_of self.now }
    {
        match self {
            Refused::NotSupported => EOPNOTSUPP,
            Refused::Exists => EEXIST,
            Refused::Full => ENOSPC,
            Refused::Invalid => EINVAL,
            Refused::Unknown => ENOENT,
            Refused::InUse(_) | Refused::Pending(_) => EBUSY,
        }
    }
}
