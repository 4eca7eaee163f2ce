//! The events of a host that wait for a device: at most 64, oldest first.
#![tactic(auto)]

mod queue;

pub use queue::Queue;

#[cfg(test)]
mod tests;
