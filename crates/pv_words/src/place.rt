//! Domains, devices, and the places of single 32-bit words.

/// A domain, by its number: 1 to 4 for the frontends' domains.
#[derive(Clone, Copy, Debug, PartialEq, Eq)]
pub struct DomId(pub u8);

/// A device, by its number: 1 to 16.
#[derive(Clone, Copy, Debug, PartialEq, Eq)]
pub struct DevId(pub u8);

/// A page frame, by its number among the frames of its own domain.
#[derive(Clone, Copy, Debug, PartialEq, Eq)]
pub struct Frame(pub u32);

/// A grant reference: the number of an entry in the grant table of its domain.
#[derive(Clone, Copy, Debug, PartialEq, Eq)]
pub struct GrantRef(pub u32);

/// The two words of a grant entry (version 1): flags and domid in the one, the frame in the other.
#[derive(Clone, Copy, Debug, PartialEq, Eq)]
pub enum Half {
    /// `flags + 65536 * domid`.
    Flags,
    /// The number of the granted frame.
    FrameNo,
}

/// Where a 32-bit word stands.
#[derive(Clone, Copy, Debug, PartialEq, Eq)]
pub enum Place {
    /// A word, 0 to 1023, of a page of a domain.
    Cell(DomId, Frame, u16),
    /// A half of a grant entry of a domain.
    Grant(DomId, GrantRef, Half),
}

/// Who acts: a device, or a domain.
#[derive(Clone, Copy, Debug, PartialEq, Eq)]
pub enum Who {
    Dev(DevId),
    Dom(DomId),
}
