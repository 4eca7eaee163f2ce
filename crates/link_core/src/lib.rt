//! The link of a device to its frontend: the activities on its shared pages, one access at a time.
#![tactic(auto)]

pub mod laws;
pub mod link;

pub use link::{EVENT_LIMIT, Link, Put};

#[cfg(test)]
mod tests;
