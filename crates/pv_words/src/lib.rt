//! The words of shared pages and grant entries, the accesses to them, and the journal of a run.
#![tactic(auto)]

pub mod access;
pub mod device;
pub mod entry;
pub mod grant;
pub mod journal;
pub mod laws;
pub mod list_words;
pub mod map;
pub mod mark;
pub mod page_list;
pub mod place;
pub mod setup;
pub mod streams;
pub mod words;

pub use access::{Access, Turn};
pub use device::{
    HostEvent, HostRefusal, NodeFault, NodeValue, Reason, Said, State, StreamKind, Touch,
};
pub use entry::{End, Entry, Told};
pub use grant::{GrantRefusal, Hold, Mode};
pub use journal::{Entries, JOURNAL_LIMIT, Journal, Stop};
pub use laws::{holds_exactly, keeps_entries, maps_exactly};
pub use list_words::ListWords;
pub use map::{MapStep, unmap};
pub use mark::{extend_mark, next_mark};
pub use page_list::PageList;
pub use place::{DevId, DomId, Frame, GrantRef, Half, Place, Who};
pub use setup::{DeviceKind, DeviceSetup, Devices, DomainSize, Kind, Setup, Sizes};
pub use streams::Streams;
pub use words::{Machine, Words};

#[cfg(test)]
mod tests;
