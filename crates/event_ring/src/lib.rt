//! The event page of a Xen paravirtual device, as `displif.h`, `sndif.h` and `kbdif.h` of Xen's public headers define it, seen from
//! the backend: what its indices say, and which slot is next. The page itself is read and written elsewhere.
#![tactic(auto)]

ghost use Rattle.std.specs.Prelude.{◌≡◌, ◌<◌, ◌≤◌};
ghost use Rattle.event_ring.specs.Events.{HasRoom, published, room_of, slot_of};

use std::marker::Model;

/// What room there is for more events.
#[derive(Clone, Copy, Debug, PartialEq, Eq)]
pub enum Room {
    /// Room for so many, from 1 to as many as the page holds.
    Free(u32),
    /// None, until the frontend consumes some.
    Full,
    /// The frontend claims an index up to which it consumed, this one, by which more events would be unread than the page holds.
    Bad(u32),
    /// None any more: the index of the next event has come to its limit.
    Spent,
}

/// The backend's end of an event page. A contract sees how many events the page holds, from which index on it takes none, and the
/// index of the next event.
#[derive(Debug, Drop)]
pub struct EventRing {
    len: u32,
    limit: u32,
    prod: u32,
}

impl Model for EventRing {
    ghost use Rattle.std.specs.Prelude.{◌≤◌};
    ghost use Rattle.event_ring.specs.Events.{Events};

    ghost Value = { Events };

    ghost view = { λ ring. record { len = ring.len; limit = ring.limit; prod = ring.prod } };

    ghost invariant = { λ ring. 1 ≤ ring.len };
}

impl EventRing {
    /// The end of a page that holds `len` events, and takes none from the index `limit` on; the next event is that of the index
    /// `prod`.
    pub fn new(len: u32, limit: u32, prod: u32) -> EventRing
        requires { 1 ≤ len }
        ensures len { result.len ≡ len }
        ensures limit { result.limit ≡ limit }
        ensures prod { result.prod ≡ prod }
    {
        EventRing { len, limit, prod }
    }

    /// The index of the next event.
    pub fn prod(&self) -> u32
        ensures { result ≡ self.now.prod }
    {
        self.prod
    }

    /// What room there is where the frontend consumed up to the index `cons`: Spent exactly where the next event's index is at the
    /// limit or above; else Bad exactly where more than the page holds would be unread, modulo 2^32; else Full exactly where just
    /// as many are; else Free with the number of events that there is room for.
    pub fn room(&self, cons: u32) -> Room
        ensures { result ≡ room_of self.now cons }
    {
        if self.prod >= self.limit {
            return Room::Spent;
        }
        let unread = self.prod.wrapping_sub(cons);
        if unread > self.len {
            Room::Bad(cons)
        } else if unread == self.len {
            Room::Full
        } else {
            Room::Free(self.len - unread)
        }
    }

    /// The slot of the event that comes `k` events after the next: its index, modulo 2^32, modulo the number of slots.
    pub fn slot(&self, k: u32) -> u32
        ensures slot { result ≡ slot_of self.now k }
        ensures within { result < self.now.len }
    {
        self.prod.wrapping_add(k) % self.len
    }

    /// Counts `n` events more, for which `room` answered that there is room: at most its number, at the index that the frontend then
    /// had consumed up to.
    pub fn published(&mut self, n: u32)
        requires { HasRoom self.old n }
        ensures { self.new ≡ published self.old n }
    {
        self.prod = self.prod.wrapping_add(n);
    }
}

#[cfg(test)]
mod tests;
