//! What a sound device's service is at, and a request with its part.

use page_directory::Walk;
use snd_wire::Request;

/// A request, and the part by which it came.
#[derive(Clone, Copy, Debug, PartialEq, Eq)]
pub struct Demand {
    /// The part.
    pub part: u8,
    /// The request.
    pub request: Request,
}

/// What a sound device's service is at.
#[derive(Drop)]
pub enum Course {
    /// Nothing.
    Rests,
    /// The pages of an OPEN are mapped.
    Walks(Walk),
    /// The pages of the stream of this part are unmapped.
    Frees(u8),
}
