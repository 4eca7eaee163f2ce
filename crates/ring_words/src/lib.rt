//! The request ring of a Xen paravirtual device, as `ring.h` of Xen's public headers defines it, seen
//! from the backend: what its indices say, and where its words stand in the shared page. The page
//! itself is read and written elsewhere.
#![tactic(auto)]

ghost use Rattle.std.specs.Prelude.{◌≡◌, ◌<◌};
ghost use Rattle.ring_words.specs.Ring.{looked_of, next_index, notifies, slot_of, SlotsAreApart};

use std::marker::Model;

/// The word of the page with the index up to which the frontend wrote requests.
pub const REQ_PROD: u16 = 0;

/// The word of the page with the request index at which the backend wants a notification.
pub const REQ_EVENT: u16 = 1;

/// The word of the page with the index up to which the backend wrote responses.
pub const RSP_PROD: u16 = 2;

/// The word of the page with the response index at which the frontend wants a notification.
pub const RSP_EVENT: u16 = 3;

/// How many slots the ring has.
pub const SLOTS: u32 = 32;

/// How many words of 32 bits a slot has.
pub const SLOT_WORDS: u16 = 16;

/// The word of the page with which the first slot starts.
pub const FIRST_SLOT_WORD: u16 = 16;

/// What the backend finds when it looks at the frontend's request index.
#[derive(Clone, Copy, Debug, PartialEq, Eq)]
pub enum Looked {
    /// No request that is not answered.
    Nothing,
    /// So many requests that are not answered, from 1 to 32.
    Ready(u32),
    /// The frontend claims more requests than the ring has slots: its request index, and the backend's
    /// response index.
    Overrun(u32, u32),
}

/// The backend's end of a request ring. A contract sees the index of the next response.
#[derive(Clone, Copy, Debug, PartialEq, Eq)]
pub struct BackRing {
    rsp: u32,
}

impl Model for BackRing {
    ghost use Rattle.std.specs.Prelude.{ℕ};

    ghost Value = { ℕ };

    ghost view = { λ ring. ring.rsp };

    ghost inverse = { λ rsp. record { rsp = rsp } };
}

impl BackRing {
    /// The end of a ring on which responses up to the index `rsp` are written.
    pub fn new(rsp: u32) -> BackRing
        ensures { result ≡ rsp }
    {
        BackRing { rsp }
    }

    /// The index of the next response.
    pub fn rsp(&self) -> u32
        ensures { result ≡ self.now }
    {
        self.rsp
    }

    /// What there is to do where the frontend's request index is `prod`.
    pub fn look(&self, prod: u32) -> Looked
        ensures { result ≡ looked_of self.now prod }
    {
        let ready = prod.wrapping_sub(self.rsp);
        if ready == 0 {
            Looked::Nothing
        } else if ready <= SLOTS {
            Looked::Ready(ready)
        } else {
            Looked::Overrun(prod, self.rsp)
        }
    }

    /// The word of the page where word `i` of the slot of the next response stands: word `16 + 16 * slot + i`, where the
    /// slot is the response's index modulo 32. The request there is the next to be answered, and its response goes in its
    /// place. A slot has 16 words; a greater `i` counts on behind them, and stays in the page all the same.
    pub fn slot_word(&self, i: u8) -> u16
        ensures word { result ≡ slot_of self.now i }
        ensures in_page { result < 1024 }
    {
        let slot = (self.rsp % SLOTS) as u16;
        FIRST_SLOT_WORD + SLOT_WORDS * slot + u16::from(i)
    }

    /// Counts one more response, and says the index up to which responses are then written.
    pub fn answered(&mut self) -> u32
        ensures next { self.new ≡ next_index self.old }
        ensures told { result ≡ self.new }
    {
        self.rsp = self.rsp.wrapping_add(1);
        self.rsp
    }
}

/// Whether the side that moved its index from `old` to `new` notifies the other side, which asked for
/// that at the index `event` (`RING_PUSH_RESPONSES_AND_CHECK_NOTIFY` of `ring.h`).
pub fn must_notify(old: u32, new: u32, event: u32) -> bool
    ensures { result ≡ notifies old new event }
{
    new.wrapping_sub(event) < new.wrapping_sub(old)
}

/// No two words of slots stand at the same place of the page.
pub fn slots_are_apart()
    ensures { SlotsAreApart }
{}

#[cfg(test)]
mod tests;
