//! Tables of values that a frontend knows by cookies, as its display buffers and framebuffers: at most 64 at one time, in
//! the order in which they came. The room for all of them is taken when a table is made.
#![tactic(auto)]

mod entries;
mod laws;
mod table;

pub use laws::{adds_one, stays_few, takes_one};
pub use table::{HasCookie, TABLE_LIMIT, Table};

#[cfg(test)]
mod tests;
