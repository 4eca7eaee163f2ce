//! The display buffers of a device: which are live, the checks of a CREATE, and where their octets stand. And a store of
//! them, with the pages that are held for buffers: these are mapped elsewhere, and given up here one by one.
#![tactic(auto)]

mod buffers;
mod laws;
mod left;
mod live;
mod pixels;
mod range;
mod store;

pub use buffers::Buffers;
pub use laws::{
    creates_one, destroys_one, frees_in_order, gives_up_in_order, keeps_pages, pixels_inside,
    stays_sound,
};
pub use left::LeftPages;
pub use live::Live;
pub use store::Store;

#[cfg(test)]
mod store_tests;
#[cfg(test)]
mod tests;
