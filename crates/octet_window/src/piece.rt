//! Parts of words.

use pv_words::Place;

/// The octets of one word of a buffer that lie in a range.
#[derive(Clone, Copy, Debug, PartialEq, Eq)]
pub struct Piece {
    /// Where the word stands.
    pub place: Place,
    /// The word's number among those of the buffer, from 0.
    pub index: u32,
    /// The first of the octets, 0 to 3: 0 is the lowest of the word.
    pub first: u8,
    /// How many octets there are, 1 to 4.
    pub len: u8,
}
