//! The octets of a range of a buffer's pages, lent piece by piece with no copy: a piece has the octets of one word.
#![tactic(auto)]

mod laws;
mod piece;
mod window;
mod word;

pub use laws::covers_exactly;
pub use piece::Piece;
pub use window::{Pieces, Window};
pub use word::{blend, join};

#[cfg(test)]
mod tests;
