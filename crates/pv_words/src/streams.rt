//! The streams that a sound device is declared with.

ghost use Rattle.std.specs.Prelude.{◌≡◌, length};
ghost use Rattle.pv_words.specs.Streams.{kinds_in};

use crate::device::StreamKind;

/// One to four streams, each by its kind, in their order. A value holds them itself, so that no memory is asked for it.
#[derive(Clone, Copy, Debug, PartialEq, Eq)]
pub enum Streams {
    One(StreamKind),
    Two(StreamKind, StreamKind),
    Three(StreamKind, StreamKind, StreamKind),
    Four(StreamKind, StreamKind, StreamKind, StreamKind),
}

impl Streams {
    /// How many there are, 1 to 4.
    pub fn count(self) -> u8
        ensures { result ≡ length (kinds_in self) }
    {
        match self {
            Streams::One(_) => 1,
            Streams::Two(_, _) => 2,
            Streams::Three(_, _, _) => 3,
            Streams::Four(_, _, _, _) => 4,
        }
    }
}
