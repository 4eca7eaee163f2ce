//! Grant entries, version 1 of the grant table (`xen/include/public/grant_table.h`), one access at a time: what
//! a device does to hold a page of a domain, and what the domain does to grant it.
#![tactic(auto)]

pub mod laws;
pub mod owner;

pub use laws::{ends_exactly, grants_exactly, owns_exactly};
pub use owner::{Owned, OwnerStep};
pub use pv_words::{MapStep, unmap};

#[cfg(test)]
mod tests;
