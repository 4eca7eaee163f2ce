//! A picture is read word by word: the words of a rectangle of a buffer, one load a step, with no copy.
#![tactic(auto)]

mod laws;
mod pixels;
mod scan;
mod shape;

pub use laws::shows_exactly;
pub use scan::{Scan, Shown};
pub use shape::Shape;

#[cfg(test)]
mod tests;
