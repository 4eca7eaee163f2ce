//! The requests, replies and events of Xen's paravirtual sound, as `sndif.h` of Xen's public headers lays them out. A
//! message is sixteen words of 32 bits. Here words become values and values words; the shared pages in which they lie
//! are read and written elsewhere.
#![tactic(auto)]

mod decoding;
mod encoding;
mod laws;
mod types;

pub use decoding::{decode, decode_event, decode_reply};
pub use encoding::{encode_event, encode_reply, encode_request};
pub use laws::{events_read_back, replies_read_back, requests_read_back};
pub use pcm_params::{NO_RANGES, Params, Ranges};
pub use types::{Asked, Event, Reply, Request};

/// The operation that opens a stream (`XENSND_OP_OPEN`).
pub const OPEN: u8 = 0;

/// The operation that closes a stream (`XENSND_OP_CLOSE`).
pub const CLOSE: u8 = 1;

/// The operation that fills a part of a stream's buffer (`XENSND_OP_READ`).
pub const READ: u8 = 2;

/// The operation that takes a part of a stream's buffer (`XENSND_OP_WRITE`).
pub const WRITE: u8 = 3;

/// The operation that starts, pauses, stops or resumes a stream (`XENSND_OP_TRIGGER`).
pub const TRIGGER: u8 = 8;

/// The operation that asks which parameters a stream may have (`XENSND_OP_HW_PARAM_QUERY`).
pub const HW_PARAM_QUERY: u8 = 9;

/// The type of the event that tells a stream's position (`XENSND_EVT_CUR_POS`).
pub const CUR_POS: u8 = 0;

#[cfg(test)]
mod tests;
