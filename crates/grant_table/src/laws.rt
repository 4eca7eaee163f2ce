//! What ends and permits come to.

ghost use Rattle.grant_table.specs.Laws.{EndsExactly, GrantsExactly, PermitsAtEntry, EndsAtEntry, OpensExactly, FreesExactly};

/// An end answers Ended exactly where its exchange frees the entry, in which it saw no in-use bit, and Busy exactly
/// where it saw one. With any other answer than Ended the flags' word is as the exchange saw it.
pub fn ends_exactly()
    ensures { EndsExactly }
{}

/// A grant for reading and writing permits both, one for reading alone permits reading.
pub fn grants_exactly()
    ensures { GrantsExactly }
{}

/// A permit and an end may be made through any port of the domain, access by access, also through one that keeps its
/// grant entries. There a permit opens the grant exactly where its exchange finds it not open, and an end frees it unless
/// its exchange sees an in-use bit: it never answers Moved.
pub fn owns_exactly()
    ensures permits { PermitsAtEntry }
    ensures ends { EndsAtEntry }
    ensures opens { OpensExactly }
    ensures frees { FreesExactly }
{}
