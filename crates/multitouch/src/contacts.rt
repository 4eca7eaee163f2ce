//! Contacts and keys, with the groups that wait.

ghost use Rattle.std.specs.Prelude.{◌≡◌, ◌≤◌, ◌↔◌, None, IsNone, IsSome, IfOk, IfSome, is_none};
ghost use Rattle.std.specs.Prelude.{length, true, not, nat_lt, ◌&&◌, ◌++◌, ◌∷◌, [], if◌then◌else◌};
ghost use Rattle.kbd_wire.specs.declared.Event.TheVariants.{Key as EventKey, Motion as EventMotion, Position as EventPosition};
ghost use Rattle.std.specs.Option.{option_copied};
ghost use Rattle.multitouch.specs.Known.{accepted, at_rest, begun, event_of, given_up, heard};
ghost use Rattle.multitouch.specs.Known.{is_caught_up, is_due, next_group, published, refusal_in, settled};
ghost use Rattle.multitouch.specs.Pressed.{after, refusal_of, Accepts};
ghost use Rattle.multitouch.specs.Repair.{is_told, repair_of};
ghost use Rattle.multitouch.specs.Sound.{IsSound};

use crate::group::Group;
use crate::panel::Panel;
use crate::repair::repair_group;
use circular_buffer::HeapCircularBuffer;
use kbd_wire::Event;
use pv_words::{HostRefusal, Touch};
use std::alloc::{AllocError, Global};
use std::marker::Model;

// How many groups may wait.
const QUEUE_LIMIT: usize = 16;

/// What a device of contacts and keys knows: what is real by its host, what was told to its frontend, the groups that wait,
/// whether some were dropped, and the group that is being published. It takes its room when it is made.
#[derive(Drop)]
pub struct Contacts {
    real: Panel,
    told: Panel,
    // The first event of each group that waits.
    queue: HeapCircularBuffer<Event>,
    has_gap: bool,
    under_way: Option<Group>,
}

impl Model for Contacts {
    ghost use Rattle.std.specs.Prelude.{◌≡◌};
    ghost use Rattle.multitouch.specs.Known.{Known, known_code, known_of};
    ghost use Rattle.multitouch.specs.Sound.{IsSound};

    ghost Value = { Known };

    ghost coded = { known_code };

    ghost view = { λ c. known_of c.real c.told c.queue.items c.has_gap c.under_way };

    ghost invariant = { λ c. (c.queue.capacity ≡ 16) × IsSound (known_of c.real c.told c.queue.items c.has_gap c.under_way) };
}

impl Contacts {
    /// Nothing is down, and nothing waits.
    pub fn new(alloc: Global) -> Result<Contacts, AllocError>
        ensures { IfOk result (λ c. c ≡ at_rest) }
    {
        let queue = HeapCircularBuffer::with_capacity(alloc, QUEUE_LIMIT)?;
        Ok(Contacts {
            real: Panel::new(),
            told: Panel::new(),
            queue,
            has_gap: false,
            under_way: None,
        })
    }

    /// The host tells of a contact. A refusal changes nothing: the number isn't below 16 (TooMany), or else the contact comes
    /// and is down (AlreadyDown), or goes or moves and isn't (NotDown).
    pub fn take(&mut self, touch: Touch) -> Result<(), HostRefusal>
        ensures refusal { refusal_in result ≡ refusal_of self.old.real (event_of touch) }
        ensures heard { self.new ≡ heard self.old (event_of touch) }
    {
        let event = match touch {
            Touch::Down(id, x, y) => Event::Down(id, x, y),
            Touch::Up(id) => Event::Up(id),
            Touch::Move(id, x, y) => Event::Move(id, x, y),
        };
        self.hear(event)
    }

    /// The host tells of a key. A refusal changes nothing: the key goes down and is down (KeyIsDown), or else 16 are
    /// (TooManyKeys), or it comes up and is up (KeyIsUp).
    pub fn key(&mut self, code: u32, is_pressed: bool) -> Result<(), HostRefusal>
        ensures refusal { refusal_in result ≡ refusal_of self.old.real (EventKey is_pressed code) }
        ensures heard { self.new ≡ heard self.old (EventKey is_pressed code) }
    {
        self.hear(Event::Key(is_pressed, code))
    }

    /// The host tells how far a pointer moved.
    pub fn motion(&mut self, x: i32, y: i32, z: i32)
        ensures { self.new ≡ heard self.old (EventMotion x y z) }
    {
        self.accept(Event::Motion(x, y, z));
    }

    /// The host tells where a pointer is, and how far its wheel moved.
    pub fn position(&mut self, x: i32, y: i32, z: i32)
        ensures { self.new ≡ heard self.old (EventPosition x y z) }
    {
        self.accept(Event::Position(x, y, z));
    }

    // An event that may be refused.
    fn hear(&mut self, event: Event) -> Result<(), HostRefusal>
        ensures refusal { refusal_in result ≡ refusal_of self.old.real event }
        ensures heard { self.new ≡ heard self.old event }
    {
        if let Some(why) = self.real.refusal(&event) {
            return Err(why);
        }
        self.accept(event);
        Ok(())
    }

    // An event that can be.
    fn accept(&mut self, event: Event)
        requires { refusal_of self.old.real event ≡ None }
        ensures { self.new ≡ accepted self.old event }
    {
        self.real.apply(&event);
        self.has_gap = !join(&mut self.queue, self.has_gap, event);
        self.settle();
    }

    // The gap is gone as soon as no group waits, what is real was told, and no group is being published.
    fn settle(&mut self)
        ensures { self.new ≡ settled self.old }
    {
        if self.has_gap && self.is_caught_up() {
            self.has_gap = false;
        }
    }

    // Whether there is nothing left to say of a gap.
    fn is_caught_up(&self) -> bool
        ensures { result ≡ is_caught_up self.now }
    {
        self.under_way.is_none() && self.queue.is_empty() && self.repair().is_none()
    }

    /// The group that takes what was told to what is real; None where there is nothing to say.
    pub fn repair(&self) -> Option<Group>
        ensures none { IsNone result ↔ (self.now.told ≡ self.now.real) }
        ensures test { is_none result ≡ is_told self.now.told self.now.real }
        ensures group { IfSome result (λ group. group ≡ repair_of self.now.told self.now.real) }
        ensures repairs { IfSome result (λ group. after self.now.told group ≡ self.now.real) }
        ensures acceptable { IfSome result (λ group. Accepts self.now.told group) }
        ensures few { IfSome result (λ group. length group ≤ 49) }
    {
        let group = repair_group(&self.told, &self.real);
        if group.events().len() > 1 {
            Some(group)
        } else {
            None
        }
    }

    /// Whether something is to be published: a group waits, or there is a gap.
    pub fn is_due(&self) -> bool
        ensures due { result ≡ is_due self.now }
        ensures sound { IsSound self.now }
    {
        !self.queue.is_empty() || self.has_gap
    }

    /// A Publish begins. Its group is chosen: the oldest that waits, or else the repair. It stays what it is to its end.
    pub fn begin(&mut self)
        requires due { is_due self.old ≡ true }
        requires idle { self.old.under_way ≡ None }
        ensures { self.new ≡ begun self.old }
    {
        let group = self.next_group();
        self.under_way = Some(group);
    }

    // The group that is to be published next.
    fn next_group(&self) -> Group
        ensures { result ≡ next_group self.now }
    {
        match self.queue.front() {
            Some(event) => Group::of(*event),
            None => repair_group(&self.told, &self.real),
        }
    }

    /// The group of the Publish that is under way, if one is.
    pub fn under_way(&self) -> Option<&Group>
        ensures { option_copied result ≡ self.now.under_way }
    {
        self.under_way.as_ref()
    }

    /// The Publish ends, and its group was published: it was told, and waits no longer.
    pub fn published(&mut self)
        requires { IsSome self.old.under_way }
        ensures { self.new ≡ published self.old }
    {
        let Some(group) = self.under_way.take() else {
            unreachable!();
        };
        follow(&mut self.told, &group);
        self.queue.pop_front();
        self.settle();
    }

    /// The Publish ends, and its group wasn't published.
    pub fn give_up(&mut self)
        ensures { self.new ≡ given_up self.old }
    {
        self.under_way = None;
        self.settle();
    }

    /// Nothing is down any longer, and nothing waits.
    pub fn clear(&mut self)
        ensures { self.new ≡ at_rest }
    {
        self.real = Panel::new();
        self.told = Panel::new();
        self.queue.clear();
        self.has_gap = false;
        self.under_way = None;
    }
}

// The group of an event joins those that wait, unless there is a gap or 16 wait. Whether it does.
fn join(queue: &mut HeapCircularBuffer<Event>, has_gap: bool, event: Event) -> bool
    requires { queue.old.capacity ≡ 16 }
    ensures joins { result ≡ (not has_gap && nat_lt (length queue.old.items) 16) }
    ensures queue { queue.new.items ≡ (if result then queue.old.items ++ event ∷ [] else queue.old.items) }
    ensures room { queue.new.capacity ≡ 16 }
{
    if has_gap {
        return false;
    }
    queue.try_push_back(event).is_ok()
}

// What is down after these events, one after another.
fn follow(panel: &mut Panel, group: &Group)
    requires { Accepts panel.old group.now }
    ensures { panel.new ≡ after panel.old group.now }
{
    for event in group.events() {
        panel.apply(event);
    }
}
