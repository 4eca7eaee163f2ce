//! A display's backend, one step at a time.
#![tactic(auto)]

mod course;
mod display;
mod laws;
mod picture;
mod scene;
mod service;
mod verdict;
mod waiting;

pub use display::{Display, new_display};
pub use laws::{displays_run, shows_stay_sound, tells_what_is_held};
pub use service::Service;

#[cfg(test)]
mod tests;
