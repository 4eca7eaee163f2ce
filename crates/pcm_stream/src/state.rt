//! States of a stream, what changes them, and why a request is refused.

ghost use Rattle.std.specs.Prelude.{◌≡◌};
ghost use Rattle.pcm_stream.specs.Refusal.{status_of};
ghost use Rattle.pcm_stream.specs.State.{trigger_at};

/// The states of a stream.
#[derive(Clone, Copy, Debug, PartialEq, Eq)]
pub enum StreamState {
    /// It has no buffer and no queue.
    Closed,
    /// It has a buffer and a queue, and nothing moves.
    Opened,
    /// Octets move at each tick.
    Running,
    /// Nothing moves for a while.
    Paused,
}

/// What changes the state of an open stream (`XENSND_OP_TRIGGER_*`).
#[derive(Clone, Copy, Debug, PartialEq, Eq)]
pub enum Trigger {
    Start,
    Pause,
    Stop,
    Resume,
}

impl Trigger {
    // The trigger of a number, or None above 3.
    pub(crate) fn from_number(n: u8) -> Option<Trigger>
        ensures { result ≡ trigger_at n }
    {
        match n {
            0 => Some(Trigger::Start),
            1 => Some(Trigger::Pause),
            2 => Some(Trigger::Stop),
            3 => Some(Trigger::Resume),
            _ => None,
        }
    }
}

/// Why a stream doesn't do what is asked.
#[derive(Clone, Copy, Debug, PartialEq, Eq)]
pub enum StreamRefusal {
    /// Not in this state, in which the stream is.
    WrongState(StreamState),
    /// A field is out of its range, or the stream is of the other kind.
    Invalid,
    /// The queue has room for this many octets, which are too few.
    NoRoom(u32),
    /// This many octets are queued, which are too few.
    TooLittle(u32),
}

// The errors of Xen's `errno.h` as a reply gives them.
const EAGAIN: i32 = -11;

const EBUSY: i32 = -16;

const EINVAL: i32 = -22;

impl StreamRefusal {
    /// The status of the reply that refuses a request for this reason: the negative number of an error.
    pub fn status(&self) -> i32
        ensures { result ≡ status_of self.now }
    {
        match self {
            StreamRefusal::WrongState(_) => EBUSY,
            StreamRefusal::Invalid => EINVAL,
            StreamRefusal::NoRoom(_) | StreamRefusal::TooLittle(_) => EAGAIN,
        }
    }
}

/// What a tick moved.
#[derive(Clone, Copy, Debug, PartialEq, Eq)]
pub struct Ticked {
    /// The number of octets.
    pub moved: u32,
    /// Their mark.
    pub mark: u32,
}
