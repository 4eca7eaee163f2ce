//! A request in hand, and the rounds of a device over its parts.

/// A request in hand.
#[derive(Clone, Copy, Debug, PartialEq, Eq)]
pub struct Hand {
    /// The part whose ring it came by.
    pub part: u8,
    /// What stands in its first word: its number, and its operation.
    pub id: u16,
    pub op: u8,
}

/// What comes next where no request is left.
#[derive(Clone, Copy, Debug, PartialEq, Eq)]
pub enum Round {
    /// A Look at the ring of this part, and whether the round served a request.
    Looks(u8, bool),
    /// A Sleep over all parts.
    Sleeps,
    /// No request came.
    Idles,
}
