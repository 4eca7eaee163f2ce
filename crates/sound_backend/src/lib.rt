//! A sound device's backend, one step at a time.
#![tactic(auto)]

mod course;
mod held;
mod laws;
mod service;
mod sound;
mod store;
mod verdict;
mod waiting;

pub use laws::{gives_up_in_order, kinds_stay, sounds_run, tells_what_is_held};
pub use service::Service;
pub use sound::{Sound, new_sound};

#[cfg(test)]
mod tests;
