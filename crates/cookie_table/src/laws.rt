//! What a value that comes or goes changes.

ghost use Rattle.cookie_table.specs.Laws.{AddsOne, StaysFew, TakesOne};

use crate::table::HasCookie;

/// A value that comes under a new cookie is found under it, and no other cookie changes.
pub fn adds_one<T: HasCookie>()
    ensures { AddsOne T T.cookie_of }
{}

/// A value that goes leaves its cookie free, and no other cookie changes.
pub fn takes_one<T: HasCookie>()
    ensures { TakesOne T T.cookie_of }
{}

/// The values are at most 64, under different cookies: one that comes under a new cookie while there is room keeps it so,
/// and so does one that goes.
pub fn stays_few<T: HasCookie>()
    ensures { StaysFew T T.cookie_of }
{}
