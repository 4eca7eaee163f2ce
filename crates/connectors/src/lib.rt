//! The connectors of a display: what each is configured to show, what it shows, and the flip that is to come.
#![tactic(auto)]

mod connector;
mod laws;
mod rectangle;

pub use connector::{Connector, Flip, Picture};
pub use laws::{flips_wait, pictures_inside, stays_sound};
pub use rectangle::Rectangle;

#[cfg(test)]
mod tests;
