//! All domains and devices of a scenario: each call appends its entries to the journal.
#![tactic(auto)]

mod owner;
mod world;

pub use world::World;
