//! What a display's service is at.

use crate::picture::Reading;
use page_directory::Walk;

/// What a display's service is at.
#[derive(Drop)]
pub enum Course {
    /// Nothing.
    Rests,
    /// The pages of a CREATE are mapped.
    Walks(Walk),
    /// The pages of the buffer of this cookie are unmapped.
    Frees(u64),
    /// A picture is read.
    Reads(Reading),
}
