//! The host's events that wait.

ghost use Rattle.std.specs.Prelude.{◌≡◌};
ghost use Rattle.display_backend.specs.Waiting.{said_of, waiting_of};

use pv_words::{HostEvent, Said};

/// An event of the host that waits.
#[derive(Clone, Copy, Debug, PartialEq, Eq)]
pub enum Waiting {
    /// A vertical blank of a connector.
    Blank(u8),
    /// A connector is to show its picture.
    Show(u8),
}

/// What of a host's event waits, where it is one of a display's.
pub fn waiting_of(e: &HostEvent) -> Option<Waiting>
    ensures { result ≡ waiting_of e.now }
{
    match e {
        HostEvent::Blank(part) => Some(Waiting::Blank(*part)),
        HostEvent::Show(part) => Some(Waiting::Show(*part)),
        _ => None,
    }
}

/// What is said of an event that only is told: no flip is pending on the connector, or it shows nothing.
pub fn said_of(event: Waiting) -> Said
    ensures { result ≡ said_of event }
{
    match event {
        Waiting::Blank(part) => Said::Blank(part),
        Waiting::Show(part) => Said::Shown(part, 0, 0),
    }
}
