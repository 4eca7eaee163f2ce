//! Entries of a journal.

use crate::access::Access;
use crate::device::{HostEvent, HostRefusal, NodeValue, Said, State};
use crate::place::{DevId, DomId, GrantRef};

/// The two ends of a split device.
#[derive(Clone, Copy, Debug, PartialEq, Eq)]
pub enum End {
    Front,
    Back,
}

/// What a domain is told of its own statements.
#[derive(Clone, Copy, Debug, PartialEq, Eq)]
pub enum Told {
    /// The grant wasn't opened, since its flags' word was this one.
    OpenRefused(GrantRef, u32),
    Ended(GrantRef),
    /// The grant wasn't ended, since this word has an in-use bit.
    Busy(GrantRef, u32),
    /// The flags' word that was loaded, and the other one that the exchange saw.
    Moved(GrantRef, u32, u32),
    /// The backend of this device isn't waiting for a frontend.
    NotReady(DevId),
}

/// One entry of a journal. It takes 32 octets.
#[derive(Clone, Copy, Debug, PartialEq, Eq)]
pub enum Entry {
    /// An access of a domain.
    Front(DomId, Access),
    /// The frontend of a device raised the device's pending word.
    Wake(DevId),
    /// An access of a device.
    Back(DevId, Access),
    /// The host tells a device an event.
    Host(DevId, HostEvent),
    /// The event of the entry before this one was refused.
    Refused(DevId, HostRefusal),
    /// An end of a device took a state.
    Bus(DevId, End, State),
    /// A node of a device was set: its part, its key and its value.
    Node(DevId, u8, u8, NodeValue),
    /// A device said something other than its state.
    Said(DevId, Said),
    Told(DomId, Told),
}
