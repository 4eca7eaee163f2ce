//! What every device does, whatever its kind: its order of work, one step at a time, and how that work is read as a run of a
//! machine of rows and names.
#![tactic(auto)]

mod step;

pub use step::Step;
