//! Formats of samples.

ghost use Rattle.std.specs.Prelude.{◌≡◌, ◌↔◌, ◌<◌, IsNone, IfSome};
ghost use Rattle.pcm_params.specs.Format.{frame_of, number_of, sample_of};

use crate::params::Params;

/// The formats of samples that a stream may have. A sample is signed (S) or unsigned (U), has so many bits, and its low
/// octet comes first (Le) or last (Be). A sample of 24 bits takes four octets.
#[derive(Clone, Copy, Debug, PartialEq, Eq)]
pub enum Format {
    S8,
    U8,
    S16Le,
    S16Be,
    U16Le,
    U16Be,
    S24Le,
    S24Be,
    U24Le,
    U24Be,
    S32Le,
    S32Be,
    U32Le,
    U32Be,
}

impl Format {
    /// The format of a number, which is also its bit in a mask of formats; None exactly above 13.
    pub fn from_number(n: u8) -> Option<Format>
        ensures unknown { IsNone result ↔ (13 < n) }
        ensures number { IfSome result (λ format. number_of format ≡ n) }
    {
        Some(match n {
            0 => Format::S8,
            1 => Format::U8,
            2 => Format::S16Le,
            3 => Format::S16Be,
            4 => Format::U16Le,
            5 => Format::U16Be,
            6 => Format::S24Le,
            7 => Format::S24Be,
            8 => Format::U24Le,
            9 => Format::U24Be,
            10 => Format::S32Le,
            11 => Format::S32Be,
            12 => Format::U32Le,
            13 => Format::U32Be,
            _ => return None,
        })
    }

    /// How many octets a sample takes: 1, 2 or 4.
    pub fn sample_octets(&self) -> u32
        ensures { result ≡ sample_of (number_of self.now) }
    {
        match self {
            Format::S8 | Format::U8 => 1,
            Format::S16Le | Format::S16Be | Format::U16Le | Format::U16Be => 2,
            Format::S24Le | Format::S24Be | Format::U24Le | Format::U24Be => 4,
            Format::S32Le | Format::S32Be | Format::U32Le | Format::U32Be => 4,
        }
    }
}

/// How many octets a frame takes: a sample for each channel. 0 where the format isn't known.
pub fn frame_octets(p: &Params) -> u32
    ensures { result ≡ frame_of p.now }
{
    match Format::from_number(p.pcm_format) {
        Some(format) => u32::from(p.pcm_channels) * format.sample_octets(),
        None => 0,
    }
}
