//! Events that are put into the event page: one by a Raise, a group by a Publish.

ghost use Rattle.std.specs.Prelude.{◌≡◌, ◌<◌, ◌≤◌, List, OnSome, length, true};
ghost use Rattle.ring_words.specs.Ring.{since};
ghost use Rattle.link_core.specs.Raise.{IsInPage, limit, obstacle_of};

use super::{EVENT_LIMIT, IN_CONS, IN_PROD, Link, Put, Stage};
use event_ring::{EventRing, Room};
use pv_words::{Access, Place, Turn, Words};

/// How events stand in their page: in so many slots from this word on, each of so many words.
#[derive(Clone, Copy)]
pub struct Layout {
    slots: u32,
    first: u16,
    size: u16,
}

// The event page of displif.h and sndif.h.
const EVENTS: Layout = Layout {
    slots: 63,
    first: 16,
    size: 16,
};

// The page of kbdif.h.
const INPUT_EVENTS: Layout = Layout {
    slots: 51,
    first: 256,
    size: 10,
};

impl Layout {
    ghost use Rattle.link_core.specs.Raise.{word_at};

    // The word of the page in which word `i` of the next events stands.
    fn word(&self, events: &EventRing, i: u16) -> u16
        requires fits { IsInPage self.now }
        requires slots { events.now.len ≡ self.now.slots }
        ensures { result ≡ word_at self.now events.now.prod i }
    {
        let slot = events.slot(u32::from(i / self.size)) as u16;
        self.first + self.size * slot + i % self.size
    }
}

// What stands against `n` more events where the frontend consumed up to the index `cons`.
fn obstacle(layout: Layout, prod: u32, cons: u32, n: usize) -> Option<Put>
    requires fits { IsInPage layout }
    requires below { prod < limit }
    ensures { result ≡ obstacle_of layout.slots prod n cons (since cons prod) }
{
    let free = match EventRing::new(layout.slots, EVENT_LIMIT, prod).room(cons) {
        Room::Free(free) => free,
        Room::Full => 0,
        Room::Bad(cons) => return Some(Put::BadCons(prod, cons)),
        Room::Spent => unreachable!(),
    };
    if n > free as usize {
        Some(Put::Full)
    } else {
        None
    }
}

impl Link {
    ghost use Rattle.std.specs.Prelude.{◌≢◌};
    ghost use Rattle.pv_words.specs.Plan.{Plan, MayGo, Makes};
    ghost use Rattle.link_core.specs.Stays.{AccessIn};
    ghost use Rattle.link_core.specs.declared.link.Stage.TheVariants as stage;
    ghost use Rattle.link_core.specs.Activities.{pages_of};
    ghost use Rattle.link_core.specs.Link.{Keeps, Leads, held_of, idle, joined_of, puts};
    ghost use Rattle.link_core.specs.Link.{publish_left, published_if, put_left, raise_left, raised_if, whole_put};

    // The load of in_cons, and what comes of it.
    fn room_step<W: Words>(
        &mut self,
        words: &mut W,
        layout: Layout,
        n: usize,
        w: &[u32],
    ) -> Turn<Put>
        requires fits { IsInPage layout }
        requires may { MayGo (W.may words.old) (whole_put layout n w.now self.old) }
        ensures leads { Leads (whole_put layout n w.now self.old) result.access result.done (put_left layout n w.now self.new) }
        ensures made { Makes W.makes words.old result.access words.new }
        ensures stays { held_of self.old ≡ pages_of (joined_of self.old) → AccessIn (held_of self.old) result.access }
        ensures keeps { Keeps self.old self.new }
        ensures joined { joined_of self.new ≡ published_if n result.done (joined_of self.old) }
        ensures rests { OnSome result.done (idle self.new ≡ true) }
        ensures room { puts self.new ≡ true → n ≤ layout.slots }
    {
        self.stage = Stage::Rest;
        self.count = 0;
        self.stored = 0;
        let prod = self.prod;
        if prod >= EVENT_LIMIT {
            return Turn {
                access: None,
                done: Some(Put::Spent(prod)),
            };
        }
        let at = Place::Cell(self.event_page.dom, self.event_page.frame, IN_CONS);
        let cons = words.load(at);
        let access = Some(Access::Load(at, cons));
        match obstacle(layout, prod, cons, n) {
            Some(end) => Turn {
                access,
                done: Some(end),
            },
            None => {
                self.stage = Stage::Raise;
                Turn { access, done: None }
            }
        }
    }

    // The store of the next word of the events, or of in_prod.
    fn store_step<W: Words>(
        &mut self,
        words: &mut W,
        layout: Layout,
        n: usize,
        w: &[u32],
    ) -> Turn<Put>
        requires stage { self.old.stage ≡ stage.Raise }
        requires fits { IsInPage layout }
        requires room { n ≤ layout.slots }
        requires short { length w.now ≤ 1024 }
        requires may { MayGo (W.may words.old) (put_left layout n w.now self.old) }
        ensures leads { Leads (put_left layout n w.now self.old) result.access result.done (put_left layout n w.now self.new) }
        ensures made { Makes W.makes words.old result.access words.new }
        ensures stays { held_of self.old ≡ pages_of (joined_of self.old) → AccessIn (held_of self.old) result.access }
        ensures keeps { Keeps self.old self.new }
        ensures joined { joined_of self.new ≡ published_if n result.done (joined_of self.old) }
        ensures rests { OnSome result.done (idle self.new ≡ true) }
    {
        let i = self.stored;
        let mut events = EventRing::new(layout.slots, EVENT_LIMIT, self.prod);
        if (i as usize) < w.len() {
            let place = layout.word(&events, i);
            let at = Place::Cell(self.event_page.dom, self.event_page.frame, place);
            let word = w[i as usize];
            words.store(at, word);
            self.stored = i + 1;
            return Turn {
                access: Some(Access::Store(at, word)),
                done: None,
            };
        }
        events.published(n as u32);
        let next = events.prod();
        let at = Place::Cell(self.event_page.dom, self.event_page.frame, IN_PROD);
        words.store(at, next);
        self.stage = Stage::Rest;
        self.prod = next;
        Turn {
            access: Some(Access::Store(at, next)),
            done: Some(Put::Done),
        }
    }

    /// Makes the next access of a Raise of these words, into the event page of a link that is joined. Where in_prod is 4294967232 or
    /// above it is Spent, without an access. Else in_cons is loaded: more than 63 events unread, modulo 2^32, make it BadCons, just 63
    /// Full. Else the words are stored in the slot of in_prod modulo 63, in order, and then in_prod, which is one more: it is Done, and
    /// the link's in_prod is one more from then on.
    pub fn raise_step<W: Words>(&mut self, words: &mut W, w: &[u32; 16]) -> Turn<Put>
        requires { MayGo (W.may words.old) (raise_left self.old w.now) }
        ensures leads { Leads (raise_left self.old w.now) result.access result.done (raise_left self.new w.now) }
        ensures made { Makes W.makes words.old result.access words.new }
        ensures stays { held_of self.old ≡ pages_of (joined_of self.old) → AccessIn (held_of self.old) result.access }
        ensures keeps { Keeps self.old self.new }
        ensures joined { joined_of self.new ≡ raised_if result.done (joined_of self.old) }
        ensures rests { OnSome result.done (idle self.new ≡ true) }
    {
        match self.stage {
            Stage::Raise => self.store_step(words, EVENTS, 1, w),
            _ => self.room_step(words, EVENTS, 1, w),
        }
    }

    /// Makes the next access of a Publish of this group of events, into the page of a link of an input device that is joined. Where
    /// in_prod is 4294967232 or above it is Spent, without an access. Else in_cons is loaded: more than 51 events unread, modulo 2^32,
    /// make it BadCons, too few of the 51 slots free for the whole group Full. Else the ten words of each event are stored, event after
    /// event and each in the slot of its index modulo 51, and then in_prod once, increased by the number of events: it is Done, and the
    /// link's in_prod is that from then on. One whose words are being stored goes on with a group that found room, as its own did.
    pub fn publish_step<W: Words>(&mut self, words: &mut W, group: &[[u32; 10]]) -> Turn<Put>
        requires room { puts self.old ≡ true → length group.now ≤ 51 }
        requires may { MayGo (W.may words.old) (publish_left self.old group.now) }
        ensures leads { Leads (publish_left self.old group.now) result.access result.done (publish_left self.new group.now) }
        ensures made { Makes W.makes words.old result.access words.new }
        ensures stays { held_of self.old ≡ pages_of (joined_of self.old) → AccessIn (held_of self.old) result.access }
        ensures keeps { Keeps self.old self.new }
        ensures joined { joined_of self.new ≡ published_if (length group.now) result.done (joined_of self.old) }
        ensures rests { OnSome result.done (idle self.new ≡ true) }
        ensures room { puts self.new ≡ true → length group.now ≤ 51 }
    {
        let n = group.len();
        let w = group.as_flattened();
        match self.stage {
            Stage::Raise => self.store_step(words, INPUT_EVENTS, n, w),
            _ => self.room_step(words, INPUT_EVENTS, n, w),
        }
    }
}
