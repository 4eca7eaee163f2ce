//! Lines, tokens and numbers of a script, and where in a line a fault stands.
//!
//! A line ends with LF. A `#` begins a comment that goes to the line's end; the octets before it are the
//! line's code, whose tokens are separated by spaces, tabs and carriage returns. Columns count octets from 1.
#![tactic(auto)]

mod fault;
mod line;
mod number;
mod octet;
mod token;

pub use fault::{FaultKind, Flaw};
pub use line::{after_line, code_of};
pub use number::Number;
pub use token::{Token, Tokens};

#[cfg(test)]
mod tests;
