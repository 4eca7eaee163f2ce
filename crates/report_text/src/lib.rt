//! The text of a journal, a line an entry: fields with one space between any two, numbers in
//! decimal, and a line feed at the end of each line.
#![tactic(auto)]

mod accesses;
mod builder;
mod devices;
mod grants;
mod hosts;
mod laws;
mod report;

pub use builder::{Line, MAX_LINE_LEN};
pub use laws::plain_reports_are_parts;
pub use report::{has_line, line_of, write_line};

#[cfg(test)]
mod tests;
