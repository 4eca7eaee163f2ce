//! How far a request has come whose pages a walk maps, or a Release gives up.

ghost use Rattle.std.specs.Prelude.{◌≡◌};
ghost use Rattle.page_directory.specs.Progress.{status_in};

// The statuses where memory was wanting, and where a page was denied.
const ENOMEM: i32 = -12;

const EACCES: i32 = -13;

/// How far a request has come that needs the pages of a page directory, or gives pages up.
#[derive(Clone, Copy, Debug, PartialEq, Eq)]
pub enum Progress {
    /// Its verdict stands, and nothing else is done yet.
    Decided,
    /// Memory was wanting for what it needs.
    NoMemory,
    /// A page was denied to it.
    Denied,
    /// The pages that it needs are mapped.
    Mapped,
    /// The pages that it gives up are unmapped.
    Released,
}

impl Progress {
    /// The status of a request with this verdict that has come so far: -12 (ENOMEM) where memory was wanting, -13 (EACCES) where a
    /// page was denied, and else its verdict.
    pub fn status(self, verdict: i32) -> i32
        ensures { result ≡ status_in self verdict }
    {
        match self {
            Progress::NoMemory => ENOMEM,
            Progress::Denied => EACCES,
            Progress::Decided | Progress::Mapped | Progress::Released => verdict,
        }
    }
}
