//! Page directories: the pages of a buffer, listed by the domain that grants them (`struct xendispl_page_directory` of
//! displif.h, the same in sndif.h). A device maps them all, one access at a time, or none.
#![tactic(auto)]

pub mod laws;
pub mod pages;
pub mod progress;
pub mod release;
pub mod walk;

pub use laws::{reads_exactly, releases_in_order, walks_exactly};
pub use pages::Pages;
pub use progress::Progress;
pub use release::Release;
pub use walk::{Walk, Walked};

#[cfg(test)]
mod tests;
