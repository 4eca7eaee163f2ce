//! The streams of a sound device: their states, their queue of octets, what a tick of the clock moves, and the position
//! that is told to the frontend. The pages of a stream's buffer are mapped, read and written elsewhere.
#![tactic(auto)]

mod laws;
mod line;
mod state;
mod stream;

pub use laws::{counts_all, goes_in_order};
pub use state::{StreamRefusal, StreamState, Ticked, Trigger};
pub use stream::{Queue, Stream, queue};

#[cfg(test)]
mod tests;
