//! The requests, replies and events of Xen's paravirtual display, as `displif.h` of Xen's public headers
//! lays them out (protocol 1). A message is sixteen words of 32 bits. Here words become values and values
//! words; the shared pages in which they lie are read and written elsewhere.
#![tactic(auto)]

ghost use Rattle.std.specs.Prelude.{◌≡◌, ◌∷◌, ◌↔◌, IsTrue};
ghost use Rattle.displ_wire.specs.Wire.{request_of, request_words, asked_of, create_of, create_words, attach_of, attach_words};
ghost use Rattle.displ_wire.specs.Wire.{config_of, config_words, cookie_words, reply_of, reply_words, event_of, event_words};
ghost use Rattle.displ_wire.specs.Wire.{all_zero, IsZero, EventsReadBack, RepliesReadBack, RequestsReadBack};

mod buffer;
mod framebuffer;

pub use crate::buffer::{Buffer, Refused};
pub use crate::framebuffer::Framebuffer;
use wire_fields::{head_fields, head_word, i32_of, u64_of, word_of_i32, words_of_u64};

/// The operation that makes a display buffer (`XENDISPL_OP_DBUF_CREATE`).
pub const CREATE: u8 = 0;

/// The operation that takes a display buffer away (`XENDISPL_OP_DBUF_DESTROY`).
pub const DESTROY: u8 = 1;

/// The operation that makes a framebuffer of a display buffer (`XENDISPL_OP_FB_ATTACH`).
pub const ATTACH: u8 = 2;

/// The operation that takes a framebuffer away (`XENDISPL_OP_FB_DETACH`).
pub const DETACH: u8 = 3;

/// The operation that sets or takes away a connector's configuration (`XENDISPL_OP_SET_CONFIG`).
pub const SET_CONFIG: u8 = 4;

/// The operation that asks for a framebuffer to be shown next (`XENDISPL_OP_PG_FLIP`).
pub const FLIP: u8 = 5;

/// The kind of the event that tells that a flip is done (`XENDISPL_EVT_PG_FLIP`).
pub const FLIPPED: u8 = 0;

/// A display buffer that is to be made of the frontend's pages (`xendispl_dbuf_create_req`).
#[derive(Clone, Copy, Debug, PartialEq, Eq)]
pub struct Create {
    /// The frontend's name for the buffer.
    pub dbuf_cookie: u64,
    /// The width in pixels.
    pub width: u32,
    /// The height in pixels.
    pub height: u32,
    /// Bits for each pixel.
    pub bpp: u32,
    /// The size in octets.
    pub buffer_sz: u32,
    /// Bit 0 asks the backend to allocate the pages (`XENDISPL_DBUF_FLG_REQ_ALLOC`).
    pub flags: u32,
    /// The grant of the first page of the directory, which lists the grants of the buffer's pages.
    pub gref_directory: u32,
}

/// A framebuffer that is to be made of a display buffer (`xendispl_fb_attach_req`).
#[derive(Clone, Copy, Debug, PartialEq, Eq)]
pub struct Attach {
    /// The frontend's name for the display buffer.
    pub dbuf_cookie: u64,
    /// The frontend's name for the framebuffer.
    pub fb_cookie: u64,
    /// The width in pixels.
    pub width: u32,
    /// The height in pixels.
    pub height: u32,
    /// The format of the pixels, four letters (a FOURCC, as in `drm_fourcc.h`).
    pub pixel_format: u32,
}

/// A connector's configuration: which framebuffer it shows, and where (`xendispl_set_config_req`).
#[derive(Clone, Copy, Debug, PartialEq, Eq)]
pub struct Config {
    /// The frontend's name for the framebuffer.
    pub fb_cookie: u64,
    /// The left edge, in pixels.
    pub x: u32,
    /// The top edge, in pixels.
    pub y: u32,
    /// The width in pixels.
    pub width: u32,
    /// The height in pixels.
    pub height: u32,
    /// Bits for each pixel.
    pub bpp: u32,
}

/// What a request asks for.
#[derive(Clone, Copy, Debug, PartialEq, Eq)]
pub enum Asked {
    /// To make a display buffer.
    Create(Create),
    /// To take the display buffer of this cookie away (`xendispl_dbuf_destroy_req`).
    Destroy(u64),
    /// To make a framebuffer of a display buffer.
    Attach(Attach),
    /// To take the framebuffer of this cookie away (`xendispl_fb_detach_req`).
    Detach(u64),
    /// To set the configuration, or to take it away (see [`is_zero`]).
    Config(Config),
    /// To show the framebuffer of this cookie next (`xendispl_page_flip_req`).
    Flip(u64),
    /// Something by an operation that is not known here.
    Other,
}

/// A request of the frontend (`xendispl_req`).
#[derive(Clone, Copy, Debug, PartialEq, Eq)]
pub struct Request {
    /// The frontend's number for the request, which the reply repeats.
    pub id: u16,
    /// The operation, which the reply repeats.
    pub op: u8,
    /// What the operation asks for.
    pub asked: Asked,
}

/// A reply of the backend (`xendispl_resp`).
#[derive(Clone, Copy, Debug, PartialEq, Eq)]
pub struct Reply {
    /// The id of the request.
    pub id: u16,
    /// The operation of the request.
    pub op: u8,
    /// 0, or the negative number of an error.
    pub status: i32,
}

/// An event of the backend (`xendispl_evt`).
#[derive(Clone, Copy, Debug, PartialEq, Eq)]
pub struct Event {
    /// The backend's number for the event.
    pub id: u16,
    /// What happened: [`FLIPPED`].
    pub kind: u8,
    /// The cookie of the framebuffer that was flipped to.
    pub value: u64,
}

/// The request in these words. The words that no field of its operation stands in are ignored.
pub fn decode(w: &[u32; 16]) -> Request
    ensures { result ≡ request_of w.now }
{
    let (id, op) = head_fields(w[0]);
    Request {
        id,
        op,
        asked: decode_asked(op, w),
    }
}

// What a request with this operation and these words asks for.
fn decode_asked(op: u8, w: &[u32; 16]) -> Asked
    ensures { result ≡ asked_of op w.now }
{
    match op {
        CREATE => Asked::Create(decode_create(w)),
        DESTROY => Asked::Destroy(u64_of(w[2], w[3])),
        ATTACH => Asked::Attach(decode_attach(w)),
        DETACH => Asked::Detach(u64_of(w[2], w[3])),
        SET_CONFIG => Asked::Config(decode_config(w)),
        FLIP => Asked::Flip(u64_of(w[2], w[3])),
        _ => Asked::Other,
    }
}

// The display buffer in the words of a request.
fn decode_create(w: &[u32; 16]) -> Create
    ensures { result ≡ create_of w.now }
{
    Create {
        dbuf_cookie: u64_of(w[2], w[3]),
        width: w[4],
        height: w[5],
        bpp: w[6],
        buffer_sz: w[7],
        flags: w[8],
        gref_directory: w[9],
    }
}

// The framebuffer in the words of a request.
fn decode_attach(w: &[u32; 16]) -> Attach
    ensures { result ≡ attach_of w.now }
{
    Attach {
        dbuf_cookie: u64_of(w[2], w[3]),
        fb_cookie: u64_of(w[4], w[5]),
        width: w[6],
        height: w[7],
        pixel_format: w[8],
    }
}

// The configuration in the words of a request.
fn decode_config(w: &[u32; 16]) -> Config
    ensures { result ≡ config_of w.now }
{
    Config {
        fb_cookie: u64_of(w[2], w[3]),
        x: w[4],
        y: w[5],
        width: w[6],
        height: w[7],
        bpp: w[8],
    }
}

/// The words of a request. Those that no field of its operation stands in are 0.
pub fn encode_request(r: &Request) -> [u32; 16]
    ensures { result ≡ request_words r.now }
{
    let head = head_word(r.id, r.op);
    match r.asked {
        Asked::Create(create) => encode_create(head, &create),
        Asked::Attach(attach) => encode_attach(head, &attach),
        Asked::Config(config) => encode_config(head, &config),
        Asked::Destroy(cookie) | Asked::Detach(cookie) | Asked::Flip(cookie) => {
            encode_cookie(head, cookie)
        }
        Asked::Other => [head, 0, 0, 0, 0, 0, 0, 0, 0, 0, 0, 0, 0, 0, 0, 0],
    }
}

// The words of a request for a display buffer, the first of which is `head`.
fn encode_create(head: u32, c: &Create) -> [u32; 16]
    ensures { result ≡ head ∷ 0 ∷ create_words c.now }
{
    let [low, high] = words_of_u64(c.dbuf_cookie);
    [
        head,
        0,
        low,
        high,
        c.width,
        c.height,
        c.bpp,
        c.buffer_sz,
        c.flags,
        c.gref_directory,
        0,
        0,
        0,
        0,
        0,
        0,
    ]
}

// The words of a request for a framebuffer, the first of which is `head`.
fn encode_attach(head: u32, a: &Attach) -> [u32; 16]
    ensures { result ≡ head ∷ 0 ∷ attach_words a.now }
{
    let [dbuf_low, dbuf_high] = words_of_u64(a.dbuf_cookie);
    let [fb_low, fb_high] = words_of_u64(a.fb_cookie);
    [
        head,
        0,
        dbuf_low,
        dbuf_high,
        fb_low,
        fb_high,
        a.width,
        a.height,
        a.pixel_format,
        0,
        0,
        0,
        0,
        0,
        0,
        0,
    ]
}

// The words of a message that has a cookie alone, the first of which is `head`.
fn encode_cookie(head: u32, cookie: u64) -> [u32; 16]
    ensures { result ≡ head ∷ 0 ∷ cookie_words cookie }
{
    let [low, high] = words_of_u64(cookie);
    [head, 0, low, high, 0, 0, 0, 0, 0, 0, 0, 0, 0, 0, 0, 0]
}

// The words of a request for a configuration, the first of which is `head`.
fn encode_config(head: u32, c: &Config) -> [u32; 16]
    ensures { result ≡ head ∷ 0 ∷ config_words c.now }
{
    let [low, high] = words_of_u64(c.fb_cookie);
    [
        head, 0, low, high, c.x, c.y, c.width, c.height, c.bpp, 0, 0, 0, 0, 0, 0, 0,
    ]
}

/// The words of a reply to the request with this id and operation. A status of 0 says that the request
/// was met, and a negative one, which error kept it from that.
pub fn encode_reply(id: u16, op: u8, status: i32) -> [u32; 16]
    ensures { result ≡ reply_words id op status }
{
    let head = head_word(id, op);
    let status = word_of_i32(status);
    [head, status, 0, 0, 0, 0, 0, 0, 0, 0, 0, 0, 0, 0, 0, 0]
}

/// The reply in these words, of which the first two count.
pub fn decode_reply(w: &[u32; 16]) -> Reply
    ensures { result ≡ reply_of w.now }
{
    let (id, op) = head_fields(w[0]);
    Reply {
        id,
        op,
        status: i32_of(w[1]),
    }
}

/// The words of the event with this id which tells that the flip to the framebuffer of this cookie is
/// done.
pub fn encode_event(id: u16, value: u64) -> [u32; 16]
    ensures { result ≡ event_words id value }
{
    encode_cookie(head_word(id, FLIPPED), value)
}

/// The event in these words, of which the second and those from the fifth on don't count.
pub fn decode_event(w: &[u32; 16]) -> Event
    ensures { result ≡ event_of w.now }
{
    let (id, kind) = head_fields(w[0]);
    Event {
        id,
        kind,
        value: u64_of(w[2], w[3]),
    }
}

/// Whether each field is 0: such a request takes the configuration away.
pub fn is_zero(c: &Config) -> bool
    ensures zero { IsTrue result ↔ IsZero c.now }
    ensures test { result ≡ all_zero c.now }
{
    c.fb_cookie == 0 && c.x == 0 && c.y == 0 && c.width == 0 && c.height == 0 && c.bpp == 0
}

/// A request whose operation and content belong together comes back from its words.
pub fn requests_read_back()
    ensures { RequestsReadBack }
{}

/// A reply comes back from its words.
pub fn replies_read_back()
    ensures { RepliesReadBack }
{}

/// An event comes back from its words.
pub fn events_read_back()
    ensures { EventsReadBack }
{}

#[cfg(test)]
mod tests;
