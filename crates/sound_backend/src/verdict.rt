//! The answer to a request, as its checks come out.

ghost use Rattle.std.specs.Prelude.{◌≡◌};
ghost use Rattle.sound_backend.specs.Verdict.{checked, refused};

use pcm_params::{Answer, NO_RANGES};
use pcm_stream::StreamRefusal;

// The status of an operation that isn't known.
pub(crate) const EOPNOTSUPP: i32 = -95;

// The answer of this status that tells no ranges.
pub(crate) fn refused(status: i32) -> Answer
    ensures { result ≡ refused status }
{
    Answer {
        status,
        body: NO_RANGES,
    }
}

// The answer to a request whose checks come out so.
pub(crate) fn checked(check: Result<(), StreamRefusal>) -> Answer
    ensures { result ≡ checked check }
{
    match check {
        Ok(()) => refused(0),
        Err(why) => refused(why.status()),
    }
}
