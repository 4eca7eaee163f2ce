//! A contact.

/// What is known of a contact that is down.
#[derive(Clone, Copy, Debug, PartialEq, Eq)]
pub struct Contact {
    /// Where it is, from the left.
    pub x: i32,
    /// Where it is, from the top.
    pub y: i32,
}
