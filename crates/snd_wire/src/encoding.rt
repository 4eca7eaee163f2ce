//! From values to words.

ghost use Rattle.std.specs.Prelude.{◌≡◌, ◌∷◌};
ghost use Rattle.snd_wire.specs.Wire.{event_words, params_words, ranges_words, reply_words, request_words};

use crate::CUR_POS;
use crate::types::{Asked, Request};
use pcm_params::{Params, Ranges};
use wire_fields::{head_word, word_of_i32, word_of_octets, words_of_u64};

/// The words of a request. Those that no field of its operation stands in are 0.
pub fn encode_request(r: &Request) -> [u32; 16]
    ensures { result ≡ request_words r.now }
{
    let head = head_word(r.id, r.op);
    match r.asked {
        Asked::Open(params) => encode_params(head, &params),
        Asked::Read(offset, length) | Asked::Write(offset, length) => [
            head, 0, offset, length, 0, 0, 0, 0, 0, 0, 0, 0, 0, 0, 0, 0,
        ],
        Asked::Trigger(kind) => [
            head,
            0,
            u32::from(kind),
            0,
            0,
            0,
            0,
            0,
            0,
            0,
            0,
            0,
            0,
            0,
            0,
            0,
        ],
        Asked::Query(ranges) => encode_ranges(head, 0, &ranges),
        Asked::Close | Asked::Other => [head, 0, 0, 0, 0, 0, 0, 0, 0, 0, 0, 0, 0, 0, 0, 0],
    }
}

// The words of a request to open a stream, the first of which is `head`.
fn encode_params(head: u32, p: &Params) -> [u32; 16]
    ensures { result ≡ head ∷ 0 ∷ params_words p.now }
{
    [
        head,
        0,
        p.pcm_rate,
        word_of_octets(p.pcm_format, p.pcm_channels),
        p.buffer_sz,
        p.gref_directory,
        p.period_sz,
        0,
        0,
        0,
        0,
        0,
        0,
        0,
        0,
        0,
    ]
}

// The words of a message with these ranges, the first two of which are `head` and `second`.
fn encode_ranges(head: u32, second: u32, r: &Ranges) -> [u32; 16]
    ensures { result ≡ head ∷ second ∷ ranges_words r.now }
{
    let [low, high] = words_of_u64(r.formats);
    [
        head,
        second,
        low,
        high,
        r.rate_min,
        r.rate_max,
        r.channels_min,
        r.channels_max,
        r.buffer_min,
        r.buffer_max,
        r.period_min,
        r.period_max,
        0,
        0,
        0,
        0,
    ]
}

/// The words of a reply to the request with this id and operation. A status of 0 says that the request was met, and a
/// negative one, which error kept it from that. The body is that of a query's reply, and [`NO_RANGES`](crate::NO_RANGES)
/// in any other.
pub fn encode_reply(id: u16, op: u8, status: i32, body: &Ranges) -> [u32; 16]
    ensures { result ≡ reply_words id op status body.now }
{
    encode_ranges(head_word(id, op), word_of_i32(status), body)
}

/// The words of the event that tells a position in octets (`XENSND_EVT_CUR_POS`).
pub fn encode_event(id: u16, value: u64) -> [u32; 16]
    ensures { result ≡ event_words id value }
{
    let [low, high] = words_of_u64(value);
    [
        head_word(id, CUR_POS),
        0,
        low,
        high,
        0,
        0,
        0,
        0,
        0,
        0,
        0,
        0,
        0,
        0,
        0,
        0,
    ]
}
