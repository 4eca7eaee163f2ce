//! Playing a scenario.
#![tactic(auto)]

mod laws;
mod player;

pub use laws::legal_journals_are_one;
pub use player::play;
