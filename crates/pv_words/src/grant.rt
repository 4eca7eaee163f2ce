//! What a device may hold of a domain's pages, and why a mapping is refused.

use crate::place::{DomId, Frame, GrantRef};

/// What a page is mapped for.
#[derive(Clone, Copy, Debug, PartialEq, Eq)]
pub enum Mode {
    /// Loads alone.
    Read,
    /// Loads and stores.
    Write,
}

/// A page that a device holds, from its mapping to its unmapping.
#[derive(Clone, Copy, Debug, PartialEq, Eq)]
pub struct Hold {
    /// The domain that granted it.
    pub dom: DomId,
    /// By which grant.
    pub gref: GrantRef,
    /// The frame that the grant named.
    pub frame: Frame,
    /// What it is mapped for.
    pub mode: Mode,
}

/// Why a mapping was refused, with the words that were seen.
#[derive(Clone, Copy, Debug, PartialEq, Eq)]
pub enum GrantRefusal {
    /// The grant table has no entry of this reference.
    NoEntry(u32),
    /// The flags' word doesn't permit access, or names a part of a page.
    NotPermitted(u32),
    /// The flags' word names another domain.
    OtherDomain(u32),
    /// The grant is read-only, and it was to be mapped for writing.
    ReadOnly(u32),
    /// An in-use bit of the flags' word is set.
    InUse(u32),
    /// The flags' word that was loaded, and the other one that the exchange saw.
    Moved(u32, u32),
    /// The domain has no such frame.
    BadFrame(u32),
    /// A page directory goes on, but names no next page.
    NoNext,
}
