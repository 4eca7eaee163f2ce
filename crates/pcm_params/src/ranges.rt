//! Ranges of parameters, what two of them have in common, and the answer to a frontend that asks.

ghost use Rattle.std.specs.Prelude.{◌≡◌};
ghost use Rattle.pcm_params.specs.Ranges.{answer_of, is_empty as has_nothing, meet_of, MeetsAreCommon};

/// Ranges of parameters (`xensnd_query_hw_param`): each bound is in its range.
#[derive(Clone, Copy, Debug, PartialEq, Eq)]
pub struct Ranges {
    /// A mask of formats: bit `f` stands for the format of number `f`.
    pub formats: u64,
    /// Frames in a second.
    pub rate_min: u32,
    /// Frames in a second.
    pub rate_max: u32,
    /// Samples in a frame.
    pub channels_min: u32,
    /// Samples in a frame.
    pub channels_max: u32,
    /// The size of the buffer in frames.
    pub buffer_min: u32,
    /// The size of the buffer in frames.
    pub buffer_max: u32,
    /// The size of a period in frames.
    pub period_min: u32,
    /// The size of a period in frames.
    pub period_max: u32,
}

/// The body of a reply that tells no ranges: all its words are 0.
pub const NO_RANGES: Ranges = Ranges {
    formats: 0,
    rate_min: 0,
    rate_max: 0,
    channels_min: 0,
    channels_max: 0,
    buffer_min: 0,
    buffer_max: 0,
    period_min: 0,
    period_max: 0,
};

/// What is offered: 14 formats, rates from 8000 to 192000, 1 to 8 channels, and buffers and periods from 1 to 1048576
/// frames.
pub const OFFERED: Ranges = Ranges {
    formats: 0x3FFF,
    rate_min: 8000,
    rate_max: 192_000,
    channels_min: 1,
    channels_max: 8,
    buffer_min: 1,
    buffer_max: 1_048_576,
    period_min: 1,
    period_max: 1_048_576,
};

// The error of Xen's `errno.h` as a reply gives it.
const EINVAL: i32 = -22;

/// The answer to a query of parameters.
#[derive(Clone, Copy, Debug, PartialEq, Eq)]
pub struct Answer {
    /// 0, or the negative number of an error.
    pub status: i32,
    /// What the reply tells.
    pub body: Ranges,
}

/// What two ranges have in common, or None exactly where they have no format, no rate, no number of channels, no size of
/// a buffer or no size of a period in common. A range whose bounds are exchanged has nothing in common with any other.
pub fn meet(a: &Ranges, b: &Ranges) -> Option<Ranges>
    ensures { result ≡ meet_of a.now b.now }
{
    let met = Ranges {
        formats: a.formats & b.formats,
        rate_min: a.rate_min.max(b.rate_min),
        rate_max: a.rate_max.min(b.rate_max),
        channels_min: a.channels_min.max(b.channels_min),
        channels_max: a.channels_max.min(b.channels_max),
        buffer_min: a.buffer_min.max(b.buffer_min),
        buffer_max: a.buffer_max.min(b.buffer_max),
        period_min: a.period_min.max(b.period_min),
        period_max: a.period_max.min(b.period_max),
    };
    if is_empty(&met) { None } else { Some(met) }
}

// Whether no format is in the mask, or bounds are exchanged.
fn is_empty(r: &Ranges) -> bool
    ensures { result ≡ has_nothing r.now }
{
    r.formats == 0
        || r.rate_max < r.rate_min
        || r.channels_max < r.channels_min
        || r.buffer_max < r.buffer_min
        || r.period_max < r.period_min
}

/// The answer to a query: what is asked and what is offered have in common, or -22 (EINVAL) and a body of zeros where
/// that is nothing.
pub fn answer_query(asked: &Ranges) -> Answer
    ensures { result ≡ answer_of asked.now }
{
    match meet(asked, &OFFERED) {
        Some(body) => Answer { status: 0, body },
        None => Answer {
            status: EINVAL,
            body: NO_RANGES,
        },
    }
}

/// What lies in a meet lies in both ranges, and the other way round; where there is no meet, nothing lies in both.
pub fn meets_are_common()
    ensures { MeetsAreCommon }
{}
