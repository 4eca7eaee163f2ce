//! Accesses to single words.

use crate::place::Place;

/// One access to one word, with the word that it found. It is one atomic step.
#[derive(Clone, Copy, Debug, PartialEq, Eq)]
pub enum Access {
    /// The word that was loaded.
    Load(Place, u32),
    /// The word that was stored.
    Store(Place, u32),
    /// A compare and exchange: the old word that was asked for, the new one, and the one seen. The new
    /// word is written exactly where the one seen is the old one.
    Cas(Place, u32, u32, u32),
    /// A clearing of bits: the mask, and the word seen. What is written is the word seen without the
    /// mask's bits.
    Clear(Place, u32, u32),
}

/// What one step of an activity did: its access, and its result where it is done.
#[derive(Clone, Copy, Debug, PartialEq, Eq)]
pub struct Turn<T> {
    pub access: Option<Access>,
    pub done: Option<T>,
}
