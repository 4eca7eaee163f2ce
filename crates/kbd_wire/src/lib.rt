//! The events that a virtual keyboard, pointer or touch panel tells its frontend, as `kbdif.h` of Xen's public headers lays
//! them out. An event is ten words of 32 bits. Here words become values and values words; the shared page in which they lie
//! is written and read elsewhere.
#![tactic(auto)]

ghost use Rattle.std.specs.Prelude.{◌≡◌, ◌↔◌, IsNone};
ghost use Rattle.kbd_wire.specs.Wire.{event_of, event_words, is_set, touch_at, touch_words};
ghost use Rattle.kbd_wire.specs.Wire.{axes_words, EventsReadBack, IsNoEvent, WordsReadBack};

mod fields;

use crate::fields::{head_octets, head_word, i32_of, word_of_i32};

// The types of events (`XENKBD_TYPE_MOTION`, `XENKBD_TYPE_KEY`, `XENKBD_TYPE_POS`, `XENKBD_TYPE_MTOUCH`).
const MOTION: u8 = 1;

const KEY: u8 = 3;

const POSITION: u8 = 4;

const TOUCH: u8 = 5;

// The kinds of touch events (`XENKBD_MT_EV_DOWN`, `XENKBD_MT_EV_UP`, `XENKBD_MT_EV_MOTION`, `XENKBD_MT_EV_SYN`).
const TOUCH_DOWN: u8 = 0;

const TOUCH_UP: u8 = 1;

const TOUCH_MOTION: u8 = 2;

const TOUCH_SYN: u8 = 3;

/// An event (`union xenkbd_in_event`).
#[derive(Clone, Copy, Debug, PartialEq, Eq)]
pub enum Event {
    /// How far a pointer and its wheel moved: x, y and z (`struct xenkbd_motion`).
    Motion(i32, i32, i32),
    /// Whether a key is pressed, and its code (`struct xenkbd_key`).
    Key(bool, u32),
    /// Where a pointer is, x and y, and how far its wheel moved (`struct xenkbd_position`).
    Position(i32, i32, i32),
    /// A contact came down: its number, x and y (`struct xenkbd_mtouch`).
    Down(u8, i32, i32),
    /// The contact of this number was lifted.
    Up(u8),
    /// A contact moved: its number, x and y.
    Move(u8, i32, i32),
    /// What was told since the last one belongs together.
    Syn,
}

/// The words of an event. Those that no field of its type stands in are 0.
pub fn encode(e: &Event) -> [u32; 10]
    ensures { result ≡ event_words e.now }
{
    match *e {
        Event::Motion(x, y, z) => encode_axes(MOTION, x, y, z),
        Event::Key(is_pressed, code) => {
            let head = head_word(KEY, u8::from(is_pressed), 0);
            [head, code, 0, 0, 0, 0, 0, 0, 0, 0]
        }
        Event::Position(x, y, z) => encode_axes(POSITION, x, y, z),
        Event::Down(contact, x, y) => encode_touch(TOUCH_DOWN, contact, x, y),
        Event::Up(contact) => encode_touch(TOUCH_UP, contact, 0, 0),
        Event::Move(contact, x, y) => encode_touch(TOUCH_MOTION, contact, x, y),
        Event::Syn => encode_touch(TOUCH_SYN, 0, 0, 0),
    }
}

// The words of a motion or a position.
fn encode_axes(kind: u8, x: i32, y: i32, z: i32) -> [u32; 10]
    ensures { result ≡ axes_words kind x y z }
{
    let head = head_word(kind, 0, 0);
    let x = word_of_i32(x);
    let y = word_of_i32(y);
    let z = word_of_i32(z);
    [head, x, y, z, 0, 0, 0, 0, 0, 0]
}

// The words of a touch event.
fn encode_touch(kind: u8, contact: u8, x: i32, y: i32) -> [u32; 10]
    ensures { result ≡ touch_words kind contact x y }
{
    let head = head_word(TOUCH, kind, contact);
    let x = word_of_i32(x);
    let y = word_of_i32(y);
    [head, 0, x, y, 0, 0, 0, 0, 0, 0]
}

/// The event in these words; None where their type is none of the four, or a touch event's kind is none of its four. The
/// words and octets that no field of its type stands in are ignored, and a key is pressed where that octet isn't 0.
pub fn decode(w: &[u32; 10]) -> Option<Event>
    ensures value { result ≡ event_of w.now }
    ensures none { IsNone result ↔ IsNoEvent w.now }
{
    let (kind, second, third) = head_octets(w[0]);
    match kind {
        MOTION => Some(Event::Motion(i32_of(w[1]), i32_of(w[2]), i32_of(w[3]))),
        KEY => Some(Event::Key(second != 0, w[1])),
        POSITION => Some(Event::Position(i32_of(w[1]), i32_of(w[2]), i32_of(w[3]))),
        TOUCH => decode_touch(second, third, w),
        _ => None,
    }
}

// The touch event of this kind in these words.
fn decode_touch(kind: u8, contact: u8, w: &[u32; 10]) -> Option<Event>
    ensures { result ≡ touch_at kind contact w.now }
{
    match kind {
        TOUCH_DOWN => Some(Event::Down(contact, i32_of(w[2]), i32_of(w[3]))),
        TOUCH_UP => Some(Event::Up(contact)),
        TOUCH_MOTION => Some(Event::Move(contact, i32_of(w[2]), i32_of(w[3]))),
        TOUCH_SYN => Some(Event::Syn),
        _ => None,
    }
}

/// An event comes back from its words.
pub fn events_read_back()
    ensures { EventsReadBack }
{}

/// Words of an event come back from it, where no octet is set but those of its fields.
pub fn words_read_back()
    ensures { WordsReadBack }
{}

#[cfg(test)]
mod tests;
