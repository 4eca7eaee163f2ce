//! How a program reads its script from a source, and writes its report to a sink.
#![tactic(auto)]

mod report;
mod script;

pub use report::write_report;
pub use script::{ReadError, SCRIPT_LIMIT, read_script};

#[cfg(test)]
mod tests;
