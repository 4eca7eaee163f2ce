//! What devices say, and what hosts and frontends tell them.

use crate::grant::GrantRefusal;

/// The states of a split device's end (xenbus.h).
#[derive(Clone, Copy, Debug, PartialEq, Eq)]
pub enum State {
    Unknown,
    Initialising,
    InitWait,
    Initialised,
    Connected,
    Closing,
    Closed,
    Reconfiguring,
    Reconfigured,
}

/// What is wrong with a node that a device needs.
#[derive(Clone, Copy, Debug, PartialEq, Eq)]
pub enum NodeFault {
    /// It isn't there.
    Missing,
    /// It holds no decimal number below 2^32.
    Bad,
}

/// What a node holds.
#[derive(Clone, Copy, Debug, PartialEq, Eq)]
pub enum NodeValue {
    Absent,
    /// Something that is no decimal number below 2^32.
    Bad,
    Number(u32),
}

/// Why a device closed its connection.
#[derive(Clone, Copy, Debug, PartialEq, Eq)]
pub enum Reason {
    /// The frontend set this ending state.
    Asked(State),
    /// The request ring's producer and the reply index are more than a ring apart.
    Overrun(u32, u32),
    /// The event page's producer, and a consumer that can't be right.
    BadCons(u32, u32),
    /// The event page's producer has come to its end.
    Spent(u32),
    /// A page of a ring was refused.
    Refused(GrantRefusal),
    /// The part, the key and the fault of a node.
    Node(u8, u8, NodeFault),
}

/// Which way the octets of a sound stream go.
#[derive(Clone, Copy, Debug, PartialEq, Eq)]
pub enum StreamKind {
    /// From the frontend to the line.
    Playback,
    /// From the line to the frontend.
    Capture,
}

/// What a host does to a contact: its number, and the position where there is one.
#[derive(Clone, Copy, Debug, PartialEq, Eq)]
pub enum Touch {
    Down(u8, i32, i32),
    Up(u8),
    Move(u8, i32, i32),
}

/// What a host tells a device.
#[derive(Clone, Copy, Debug, PartialEq, Eq)]
pub enum HostEvent {
    /// A vertical blank of a connector.
    Blank(u8),
    /// A connector is to show its picture.
    Show(u8),
    /// So many frames went by on a stream.
    Tick(u8, u32),
    Touch(Touch),
    /// A key's code, and whether it is pressed.
    Key(u32, bool),
    Motion(i32, i32, i32),
    Position(i32, i32, i32),
}

/// Why a host event was refused.
#[derive(Clone, Copy, Debug, PartialEq, Eq)]
pub enum HostRefusal {
    NotConnected,
    /// 64 events wait.
    Full,
    AlreadyDown(u8),
    NotDown(u8),
    TooMany(u8),
    KeyIsDown(u32),
    KeyIsUp(u32),
    TooManyKeys(u32),
}

/// What a device says. The first number is the part (a connector, a stream, or 0), but in `Published`
/// it is the number of events.
#[derive(Clone, Copy, Debug, PartialEq, Eq)]
pub enum Said {
    /// Its new state.
    State(State),
    /// The id and the operation of the request that it took.
    Request(u8, u16, u8),
    /// The walk of a page directory was refused.
    Denied(GrantRefusal),
    /// The id, the status, and whether the frontend was notified.
    Replied(u8, u16, i32, bool),
    /// The cookie of the framebuffer that a flip event told.
    Raised(u8, u64),
    /// The position that an event told.
    Pos(u8, u64),
    /// The event page had no room.
    Full(u8),
    /// A blank found no pending flip.
    Blank(u8),
    /// The number of pixels that were shown, and their mark.
    Shown(u8, u32, u32),
    /// The number of octets that were moved, and their mark.
    Moved(u8, u32, u32),
    Published(u32),
    Closed(Reason),
}
