//! What is written comes back.

ghost use Rattle.snd_wire.specs.Wire.{EventsReadBack, RepliesReadBack, RequestsReadBack};

/// A request whose operation and content belong together comes back from its words.
pub fn requests_read_back()
    ensures { RequestsReadBack }
{}

/// A reply comes back from its words, its body with it.
pub fn replies_read_back()
    ensures { RepliesReadBack }
{}

/// An event comes back from its words.
pub fn events_read_back()
    ensures { EventsReadBack }
{}
