//! The parameters of sound streams: the formats of samples, which parameters a stream may have, and the answer to a
//! frontend that asks for them.
#![tactic(auto)]

mod format;
mod open;
mod params;
mod ranges;

pub use format::{Format, frame_octets};
pub use open::{BUFFER_LIMIT, accepts};
pub use params::Params;
pub use ranges::{Answer, NO_RANGES, OFFERED, Ranges, answer_query, meet, meets_are_common};

#[cfg(test)]
mod tests;
