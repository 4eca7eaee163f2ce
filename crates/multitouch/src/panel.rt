// What is down on a panel of contacts and keys.

ghost use Rattle.std.specs.Prelude.{◌≡◌, ◌<◌, ◌≤◌, None, length, true, false};
ghost use Rattle.std.specs.FinMap as map;
ghost use Rattle.multitouch.specs.Panel.{place, with_contact};
ghost use Rattle.multitouch.specs.Pressed.{after_event, down_refusal, is_key_down, lift_refusal};
ghost use Rattle.multitouch.specs.Pressed.{nothing, press_refusal, refusal_of, release_refusal};

use crate::contact::Contact;
use arrayvec::ArrayVec;
use kbd_wire::Event;
use pv_words::HostRefusal;
use std::marker::Model;

// How many contacts there may be, numbered from 0.
pub(crate) const CONTACT_LIMIT: u8 = 16;

// How many keys may be down.
pub(crate) const KEY_LIMIT: usize = 16;

// The contacts and keys that are down.
#[derive(Drop)]
pub(crate) struct Panel {
    slots: [Option<Contact>; 16],
    // The codes of the keys, in rising order.
    codes: ArrayVec<u32, KEY_LIMIT>,
}

impl Model for Panel {
    ghost use Rattle.std.specs.Prelude.{◌≡◌, ◌≤◌, length};
    ghost use Rattle.multitouch.specs.Panel.{contacts_of, keys_of, IsRising};
    ghost use Rattle.multitouch.specs.Pressed.{Pressed, pressed_code};

    ghost Value = { Pressed };

    ghost coded = { pressed_code };

    ghost view = { λ p. record { contacts = contacts_of p.slots; keys = keys_of p.codes.items } };

    ghost invariant = { λ p. IsRising p.codes.items × (length p.codes.items ≤ 16) × (length p.slots ≡ 16) };
}

impl Panel {
    // Nothing is down.
    pub(crate) fn new() -> Panel
        ensures { result ≡ nothing }
    {
        Panel {
            slots: [None; 16],
            codes: ArrayVec::new(),
        }
    }

    // What is known of a contact, if it is down.
    pub(crate) fn contact(&self, id: u8) -> Option<Contact>
        ensures { result ≡ map.get self.now.contacts id }
    {
        if id < CONTACT_LIMIT {
            self.slots[id as usize]
        } else {
            None
        }
    }

    // Whether a key is down.
    pub(crate) fn is_key_down(&self, code: u32) -> bool
        ensures { result ≡ is_key_down self.now code }
    {
        self.codes.as_slice().contains(&code)
    }

    // The codes of the keys that are down, in rising order.
    pub(crate) fn codes(&self) -> &[u32]
        ensures codes { result.now ≡ map.keys self.now.keys }
        ensures few { length result.now ≤ 16 }
    {
        self.codes.as_slice()
    }

    // Why an event can't be, if it can't.
    pub(crate) fn refusal(&self, event: &Event) -> Option<HostRefusal>
        ensures { result ≡ refusal_of self.now event.now }
    {
        match *event {
            Event::Down(id, _, _) => self.down_refusal(id),
            Event::Move(id, _, _) | Event::Up(id) => self.lift_refusal(id),
            Event::Key(true, code) => self.press_refusal(code),
            Event::Key(false, code) => self.release_refusal(code),
            Event::Motion(_, _, _) | Event::Position(_, _, _) | Event::Syn => None,
        }
    }

    fn down_refusal(&self, id: u8) -> Option<HostRefusal>
        ensures { result ≡ down_refusal self.now id }
    {
        if id >= CONTACT_LIMIT {
            return Some(HostRefusal::TooMany(id));
        }
        match self.contact(id) {
            Some(_) => Some(HostRefusal::AlreadyDown(id)),
            None => None,
        }
    }

    fn lift_refusal(&self, id: u8) -> Option<HostRefusal>
        ensures { result ≡ lift_refusal self.now id }
    {
        if id >= CONTACT_LIMIT {
            return Some(HostRefusal::TooMany(id));
        }
        match self.contact(id) {
            Some(_) => None,
            None => Some(HostRefusal::NotDown(id)),
        }
    }

    fn press_refusal(&self, code: u32) -> Option<HostRefusal>
        ensures { result ≡ press_refusal self.now code }
    {
        if self.is_key_down(code) {
            return Some(HostRefusal::KeyIsDown(code));
        }
        if self.codes.len() >= KEY_LIMIT {
            return Some(HostRefusal::TooManyKeys(code));
        }
        None
    }

    fn release_refusal(&self, code: u32) -> Option<HostRefusal>
        ensures { result ≡ release_refusal self.now code }
    {
        if self.is_key_down(code) {
            None
        } else {
            Some(HostRefusal::KeyIsUp(code))
        }
    }

    // What is down changes by an event that can be.
    pub(crate) fn apply(&mut self, event: &Event)
        requires { refusal_of self.old event.now ≡ None }
        ensures { self.new ≡ after_event self.old event.now }
    {
        match *event {
            Event::Down(id, x, y) => self.put(id, Some(Contact { x, y })),
            Event::Move(id, x, y) => self.put(id, Some(Contact { x, y })),
            Event::Up(id) => self.put(id, None),
            Event::Key(true, code) => self.press(code),
            Event::Key(false, code) => self.release(code),
            Event::Motion(_, _, _) | Event::Position(_, _, _) | Event::Syn => {}
        }
    }

    // A contact comes, changes or goes.
    fn put(&mut self, id: u8, contact: Option<Contact>)
        requires { id < 16 }
        ensures { self.new ≡ record self.old { contacts = with_contact self.old.contacts id contact } }
    {
        self.slots[id as usize] = contact;
    }

    // A key goes down.
    fn press(&mut self, code: u32)
        requires up { is_key_down self.old code ≡ false }
        requires room { map.len self.old.keys < 16 }
        ensures { self.new ≡ record self.old { keys = map.insert self.old.keys code tt } }
    {
        let at = place_of(self.codes.as_slice(), code);
        self.codes.insert(at, code);
    }

    // A key comes up.
    fn release(&mut self, code: u32)
        requires { is_key_down self.old code ≡ true }
        ensures { self.new ≡ record self.old { keys = map.remove self.old.keys code } }
    {
        let at = place_of(self.codes.as_slice(), code);
        self.codes.remove(at);
    }
}

// How many of these codes are below one: its place among them, where they rise.
fn place_of(codes: &[u32], code: u32) -> usize
    ensures { result ≡ place code codes.now }
{
    codes.iter().filter(|other| **other < code).count()
}
