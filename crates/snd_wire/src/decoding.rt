//! From words to values.

ghost use Rattle.std.specs.Prelude.{◌≡◌};
ghost use Rattle.snd_wire.specs.Wire.{asked_of, event_of, params_of, ranges_of, reply_of, request_of};

use crate::types::{Asked, Event, Reply, Request};
use crate::{CLOSE, HW_PARAM_QUERY, OPEN, READ, TRIGGER, WRITE};
use pcm_params::{Params, Ranges};
use wire_fields::{head_fields, i32_of, octets_of, u64_of};

/// The request in these words. The words and octets that no field of its operation stands in are ignored.
pub fn decode(w: &[u32; 16]) -> Request
    ensures { result ≡ request_of w.now }
{
    let (id, op) = head_fields(w[0]);
    Request {
        id,
        op,
        asked: decode_asked(op, w),
    }
}

// What a request with this operation and these words asks for.
fn decode_asked(op: u8, w: &[u32; 16]) -> Asked
    ensures { result ≡ asked_of op w.now }
{
    match op {
        OPEN => Asked::Open(decode_params(w)),
        CLOSE => Asked::Close,
        READ => Asked::Read(w[2], w[3]),
        WRITE => Asked::Write(w[2], w[3]),
        TRIGGER => Asked::Trigger(octets_of(w[2]).0),
        HW_PARAM_QUERY => Asked::Query(decode_ranges(w)),
        _ => Asked::Other,
    }
}

// The parameters in the words of a request.
fn decode_params(w: &[u32; 16]) -> Params
    ensures { result ≡ params_of w.now }
{
    let (pcm_format, pcm_channels) = octets_of(w[3]);
    Params {
        pcm_rate: w[2],
        pcm_format,
        pcm_channels,
        buffer_sz: w[4],
        gref_directory: w[5],
        period_sz: w[6],
    }
}

// The ranges in the words of a request or of its reply.
fn decode_ranges(w: &[u32; 16]) -> Ranges
    ensures { result ≡ ranges_of w.now }
{
    Ranges {
        formats: u64_of(w[2], w[3]),
        rate_min: w[4],
        rate_max: w[5],
        channels_min: w[6],
        channels_max: w[7],
        buffer_min: w[8],
        buffer_max: w[9],
        period_min: w[10],
        period_max: w[11],
    }
}

/// The reply in these words. The last four are ignored.
pub fn decode_reply(w: &[u32; 16]) -> Reply
    ensures { result ≡ reply_of w.now }
{
    let (id, op) = head_fields(w[0]);
    Reply {
        id,
        op,
        status: i32_of(w[1]),
        body: decode_ranges(w),
    }
}

/// The event in these words, of which the first one, the third and the fourth count.
pub fn decode_event(w: &[u32; 16]) -> Event
    ensures { result ≡ event_of w.now }
{
    let (id, kind) = head_fields(w[0]);
    Event {
        id,
        kind,
        value: u64_of(w[2], w[3]),
    }
}
