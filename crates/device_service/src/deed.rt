//! What a step of a service did.

use pv_words::{Access, Said};

/// Where a service stands after a step of its own.
#[derive(Clone, Copy, Debug, PartialEq, Eq)]
pub enum Now {
    /// Memory was wanting: the request in hand is to be answered.
    Answers,
    /// The activity goes on.
    GoesOn,
    /// It is over.
    Over,
}

/// What a step of a service did.
#[derive(Clone, Copy, Debug, PartialEq, Eq)]
pub struct Deed {
    /// The access that it made.
    pub access: Option<Access>,
    /// What is said with it.
    pub said: Option<Said>,
    /// Where the service stands then.
    pub now: Now,
}
