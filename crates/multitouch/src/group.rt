//! Events that are published together.

ghost use Rattle.std.specs.Prelude.{◌≡◌, ◌+◌, ◌<◌, ◌≤◌, [], ◌∷◌, ◌++◌, length};
ghost use Rattle.multitouch.specs.Known.{group_of};

use kbd_wire::Event;
use std::marker::Model;

// The most events of a group: 32 keys, 16 contacts, and a SYN.
pub(crate) const GROUP_LIMIT: usize = 49;

/// A group of events, in order: at most 49.
#[derive(Drop)]
pub struct Group {
    room: [Event; GROUP_LIMIT],
    len: usize,
}

impl Model for Group {
    ghost use Rattle.std.specs.Prelude.{List, ◌≤◌, take};
    ghost use Rattle.kbd_wire.specs.declared.Event.{Event};

    ghost Value = { List Event };

    ghost view = { λ g. take g.len g.room };

    ghost invariant = { λ g. g.len ≤ 49 };
}

impl Group {
    // A group of no events.
    pub(crate) fn new() -> Group
        ensures { result ≡ [] }
    {
        Group {
            room: [Event::Syn; GROUP_LIMIT],
            len: 0,
        }
    }

    // The group of an event that a host tells: a touch is followed by a SYN.
    pub(crate) fn of(event: Event) -> Group
        ensures { result ≡ group_of event }
    {
        let mut group = Group::new();
        group.push(event);
        match event {
            Event::Down(_, _, _) | Event::Up(_) | Event::Move(_, _, _) => group.push(Event::Syn),
            Event::Key(_, _) | Event::Motion(_, _, _) | Event::Position(_, _, _) | Event::Syn => {}
        }
        group
    }

    // One event more, last.
    pub(crate) fn push(&mut self, event: Event)
        requires { length self.old < 49 }
        ensures { self.new ≡ self.old ++ event ∷ [] }
    {
        self.room[self.len] = event;
        self.len += 1;
    }

    /// The events, in order.
    pub fn events(&self) -> &[Event]
        ensures events { result.now ≡ self.now }
        ensures few { length self.now ≤ 49 }
    {
        &self.room[..self.len]
    }
}
