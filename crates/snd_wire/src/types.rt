//! What the messages of the sound say.

use pcm_params::{Params, Ranges};

/// What a request asks for.
#[derive(Clone, Copy, Debug, PartialEq, Eq)]
pub enum Asked {
    /// To open the stream.
    Open(Params),
    /// To close it.
    Close,
    /// To fill the buffer from this octet on with so many octets (`xensnd_rw_req`: offset, length).
    Read(u32, u32),
    /// To take from the buffer, from this octet on, so many octets (`xensnd_rw_req`: offset, length).
    Write(u32, u32),
    /// To start (0), pause (1), stop (2) or resume (3) the stream (`xensnd_trigger_req`).
    Trigger(u8),
    /// Which of these parameters a stream may have.
    Query(Ranges),
    /// Something by an operation that is not known here.
    Other,
}

/// A request of the frontend (`xensnd_req`).
#[derive(Clone, Copy, Debug, PartialEq, Eq)]
pub struct Request {
    /// The frontend's number for the request, which the reply repeats.
    pub id: u16,
    /// The operation, which the reply repeats.
    pub op: u8,
    /// What the operation asks for.
    pub asked: Asked,
}

/// A reply of the backend (`xensnd_resp`).
#[derive(Clone, Copy, Debug, PartialEq, Eq)]
pub struct Reply {
    /// The id of the request.
    pub id: u16,
    /// The operation of the request.
    pub op: u8,
    /// 0, or the negative number of an error.
    pub status: i32,
    /// The ranges that a query is answered with; 0 in any other reply.
    pub body: Ranges,
}

/// An event of the backend (`xensnd_evt`).
#[derive(Clone, Copy, Debug, PartialEq, Eq)]
pub struct Event {
    /// The number of the event.
    pub id: u16,
    /// The type of the event.
    pub kind: u8,
    /// The position in octets (`xensnd_cur_pos_evt`).
    pub value: u64,
}
