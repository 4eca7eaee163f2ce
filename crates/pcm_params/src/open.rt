//! The parameters with which a stream is opened.

ghost use Rattle.std.specs.Prelude.{◌≡◌};
ghost use Rattle.pcm_params.specs.Params.{is_accepted};

use crate::format::frame_octets;
use crate::params::Params;
use crate::ranges::OFFERED;

/// The largest buffer of a stream, in octets.
pub const BUFFER_LIMIT: u32 = 1_048_576;

/// Whether a stream can be opened with these parameters: the format is known, rate and channels are in the ranges that
/// are offered, and the buffer isn't empty, takes at most 1048576 octets, and holds whole frames. The period is free.
pub fn accepts(p: &Params) -> bool
    ensures { result ≡ is_accepted p.now }
{
    let channels = u32::from(p.pcm_channels);
    let frame = frame_octets(p);
    if frame == 0 {
        return false;
    }
    p.pcm_format <= 13
        && OFFERED.rate_min <= p.pcm_rate
        && p.pcm_rate <= OFFERED.rate_max
        && OFFERED.channels_min <= channels
        && channels <= OFFERED.channels_max
        && 0 < p.buffer_sz
        && p.buffer_sz <= BUFFER_LIMIT
        && p.buffer_sz % frame == 0
}
