//! A device's end of one request ring and of one event page.

ghost use Rattle.std.specs.Prelude.{◌≡◌, ℕ, [], Option, ◌+◌, ◌<◌, ◌≤◌, IsTrue, true, false, length, List, Some, None, Ok, Err};
ghost use Rattle.pv_words.specs.MapLeft as mapping;
ghost use Rattle.pv_words.specs.declared.grant.Mode.TheVariants.{Write};
ghost use Rattle.link_core.specs.Stage.{length_of, taken_in, answered_in, slept_in, agrees, and_event, may_raise};

mod event;

use pv_words::{
    Access, DomId, Frame, GrantRef, GrantRefusal, Hold, MapStep, Mode, Place, Turn, Words, unmap,
};
use ring_words::{BackRing, Looked, REQ_EVENT, REQ_PROD, RSP_EVENT, RSP_PROD, must_notify};

/// The word of an event page with the index up to which the frontend consumed events.
const IN_CONS: u16 = 0;

/// The word of an event page with the index up to which the backend wrote events.
const IN_PROD: u16 = 1;

/// in_prod is spent from this index on: no event is put any more (the event page of displif.h, sndif.h and kbdif.h).
pub const EVENT_LIMIT: u32 = 4_294_967_232;

// The activity under way; a Look has one access alone, and a Drop goes by what is held.
#[derive(Clone, Copy, Debug, PartialEq, Eq)]
enum Stage {
    Rest,
    Take,
    Answer,
    Sleep,
    // The words of events are stored, then they are published.
    Raise,
    // A Connect maps the ring's page.
    Ring,
    // It loads rsp_prod.
    Index,
    // It maps the event page.
    Event,
    // It loads in_prod.
    Prod,
}

// Which pages are held.
#[derive(Clone, Copy, Debug, PartialEq, Eq)]
enum Kept {
    Nothing,
    Ring,
    Event,
    Both,
}

// What is held with the event page too.
fn and_event(kept: Kept) -> Kept
    ensures exact { result ≡ and_event kept }
{
    match kept {
        Kept::Nothing | Kept::Event => Kept::Event,
        Kept::Ring | Kept::Both => Kept::Both,
    }
}

/// How a Raise or a Publish ended.
#[derive(Clone, Copy, Debug, PartialEq, Eq)]
pub enum Put {
    /// The event is put, or all events of the group are.
    Done,
    /// There was no room for it, or not for all of them.
    Full,
    /// The frontend's index is false: the index of the next event, and that up to which the frontend claims to have consumed.
    BadCons(u32, u32),
    /// The index of the next event, which is too near to its end for any more.
    Spent(u32),
}

/// The ring and the event page of one part of a device, and how far the activity on them has come. Each step makes the
/// next access of the activity that it names, which it begins where another one or none is under way. An access to a cell
/// lies in a page that the link holds before the step: one of a Connect always, one of a Look, Take, Answer or Sleep where
/// the link holds both pages, as it does from a Connect with a ring that ended with Ok to the next Drop.
#[derive(Drop)]
pub struct Link {
    dom: DomId,
    part: u8,
    kept: Kept,
    ring_page: Hold,
    event_page: Hold,
    // The last Connect ended with Ok, and nothing was dropped since.
    joined: bool,
    ring: BackRing,
    prod: u32,
    stage: Stage,
    // The map of a Connect.
    map: MapStep,
    // How many accesses of the activity on the ring are made.
    count: u8,
    // How many words of the events are stored.
    stored: u16,
    // The words taken so far.
    words: [u32; 16],
    ghost within: { count < length_of stage },
    ghost agrees: { agrees stage kept ≡ true },
    ghost whose: { mapping.dom_of map ≡ dom.0 },
    ghost going: { mapping.is_over map ≡ false },
    ghost raises: { may_raise stage prod ≡ true },
    ghost writes: { (ring_page.mode ≡ Write) × (event_page.mode ≡ Write) × (mapping.mode_of map ≡ Write) },
}

impl Link {
    ghost use Rattle.std.specs.Prelude.{OnSome, IsSome, is_some, slice_get, if◌then◌else◌};
    ghost use Rattle.pv_words.specs.Plan.{Plan, MayGo, Turns, Makes};
    ghost use Rattle.ring_words.specs.declared.Looked.{Looked};
    ghost use Rattle.ring_words.specs.Ring.{next_index};
    ghost use Rattle.link_core.specs.Stays.{AccessIn};
    ghost use Rattle.link_core.specs.declared.link.Kept.TheVariants as kept;
    ghost use Rattle.link_core.specs.declared.link.Stage.TheVariants as stage;
    ghost use Rattle.link_core.specs.Activities.{Page, Joined, look_plan, take_plan, answer_plan, sleep_plan, pages_of};
    ghost use Rattle.link_core.specs.Link.{dom_of, part_of, held_of, is_joined, joined_of, page_of, rsp_of, idle};
    ghost use Rattle.link_core.specs.Link.{take_left, answer_left, sleep_left, Keeps, answered_of, drop_left, Leads, rest_of};
    ghost use Rattle.link_core.specs.Link.{connect_map_left, refs_of, MayConnectBy, AfterConnect, rings, Came, CameBy};
    ghost use Rattle.link_core.specs.Link.{ConnectsOn, ConnectsOnBy, ConnectsAnyRingBy, ConnectsAnyBy};

    /// The link of this part of a device of the domain, which holds no page. It stays that part's.
    pub fn new(dom: DomId, part: u8) -> Link
        ensures dom { dom_of result ≡ dom.0 }
        ensures part { part_of result ≡ part }
        ensures bare { held_of result ≡ [] }
        ensures apart { is_joined result ≡ false }
        ensures idle { idle result ≡ true }
    {
        let none = Hold {
            dom,
            gref: GrantRef(0),
            frame: Frame(0),
            mode: Mode::Write,
        };
        Link {
            dom,
            part,
            kept: Kept::Nothing,
            ring_page: none,
            event_page: none,
            joined: false,
            ring: BackRing::new(0),
            prod: 0,
            stage: Stage::Rest,
            map: MapStep::new(dom, GrantRef(0), Mode::Write),
            count: 0,
            stored: 0,
            words: [0; 16],
        }
    }

    /// The index up to which events were written when the link was connected.
    pub fn in_prod(&self) -> u32
        ensures { result ≡ (joined_of self.now).prod }
    {
        self.prod
    }

    /// How many pages the link holds.
    pub fn held(&self) -> u32
        ensures { result ≡ length (held_of self.now) }
    {
        match self.kept {
            Kept::Nothing => 0,
            Kept::Ring => 1,
            Kept::Event => 1,
            Kept::Both => 2,
        }
    }

    /// The page at this place of those that it holds, the ring's page before the event page.
    pub fn hold_at(&self, i: u32) -> Hold
        requires { i < length (held_of self.now) }
        ensures { slice_get (held_of self.now) i ≡ Some result }
    {
        match self.kept {
            Kept::Nothing => self.ring_page,
            Kept::Ring => self.ring_page,
            Kept::Event => self.event_page,
            Kept::Both => {
                if i == 0 {
                    self.ring_page
                } else {
                    self.event_page
                }
            }
        }
    }

    fn taken(&self) -> u8
        ensures exact { result ≡ taken_in self.now.stage self.now.count }
        ensures within { result < 16 }
    {
        match self.stage {
            Stage::Take => self.count,
            _ => 0,
        }
    }

    fn answered(&self) -> u8
        ensures exact { result ≡ answered_in self.now.stage self.now.count }
        ensures within { result < 18 }
    {
        match self.stage {
            Stage::Answer => self.count,
            _ => 0,
        }
    }

    fn slept(&self) -> u8
        ensures exact { result ≡ slept_in self.now.stage self.now.count }
        ensures within { result < 2 }
    {
        match self.stage {
            Stage::Sleep => self.count,
            _ => 0,
        }
    }

    // Begins a Connect with the map of this page.
    fn begin(&mut self, gref: GrantRef, stage: Stage)
        requires agrees { agrees stage kept.Nothing ≡ true }
        requires raises { may_raise stage self.old.prod ≡ true }
        ensures stage { self.new.stage ≡ stage }
        ensures kept { self.new.kept ≡ kept.Nothing }
        ensures ring { self.new.ring ≡ 0 }
        ensures dom { self.new.dom ≡ self.old.dom }
        ensures part { part_of self.new ≡ part_of self.old }
        ensures map { mapping.BeginsMap self.old.dom.0 gref.0 Write self.new.map }
    {
        self.kept = Kept::Nothing;
        self.joined = false;
        self.ring = BackRing::new(0);
        self.stage = stage;
        self.map = MapStep::new(self.dom, gref, Mode::Write);
        self.count = 0;
    }

    // The map of the ring's page.
    fn ring_step<W: Words>(&mut self, words: &mut W) -> Turn<Result<(), GrantRefusal>>
        requires stage { self.old.stage ≡ stage.Ring }
        requires may { MayGo (W.may words.old) (connect_map_left (W.frames_of words.old) (W.grants_of words.old) self.old) }
        ensures leads { ConnectsAnyBy (W.frames_of words.old) (W.grants_of words.old) self.old result self.new }
        ensures made { Makes W.makes words.old result.access words.new }
        ensures stays { (held : List Hold) → AccessIn held result.access }
        ensures dom { dom_of self.new ≡ dom_of self.old }
        ensures part { part_of self.new ≡ part_of self.old }
        ensures ends { AfterConnect result.done self.new }
        ensures came { Came result.done self.new }
    {
        self.joined = false;
        let turn = self.map.step(words);
        let access = turn.access;
        let Some(end) = turn.done else {
            return Turn { access, done: None };
        };
        self.map = MapStep::new(self.dom, GrantRef(0), Mode::Write);
        match end {
            Ok(hold) => {
                self.ring_page = hold;
                self.kept = Kept::Ring;
                self.stage = Stage::Index;
                Turn { access, done: None }
            }
            Err(refusal) => {
                self.stage = Stage::Rest;
                Turn {
                    access,
                    done: Some(Err(refusal)),
                }
            }
        }
    }

    // The load of rsp_prod. An event page that the domain has no entry for is refused with it.
    fn rsp_step<W: Words>(
        &mut self,
        words: &mut W,
        event: GrantRef,
    ) -> Turn<Result<(), GrantRefusal>>
        requires stage { self.old.stage ≡ stage.Index }
        requires may { MayConnectBy (W.may words.old) (W.frames_of words.old) (W.grants_of words.old) None event.0 self.old }
        ensures leads { ConnectsAnyRingBy (W.frames_of words.old) (W.grants_of words.old) event.0 self.old result self.new }
        ensures made { Makes W.makes words.old result.access words.new }
        ensures stays { AccessIn (held_of self.old) result.access }
        ensures dom { dom_of self.new ≡ dom_of self.old }
        ensures part { part_of self.new ≡ part_of self.old }
        ensures ends { AfterConnect result.done self.new }
        ensures came { Came result.done self.new }
    {
        self.joined = false;
        let known = event.0 < words.grants(self.dom);
        let at = Place::Cell(self.ring_page.dom, self.ring_page.frame, RSP_PROD);
        let rsp = words.load(at);
        let access = Some(Access::Load(at, rsp));
        self.ring = BackRing::new(rsp);
        if !known {
            self.stage = Stage::Rest;
            return Turn {
                access,
                done: Some(Err(GrantRefusal::NoEntry(event.0))),
            };
        }
        self.map = MapStep::new(self.dom, event, Mode::Write);
        self.stage = Stage::Event;
        Turn { access, done: None }
    }

    // The map of the event page.
    fn event_step<W: Words>(&mut self, words: &mut W) -> Turn<Result<(), GrantRefusal>>
        requires stage { self.old.stage ≡ stage.Event }
        requires may { MayGo (W.may words.old) (connect_map_left (W.frames_of words.old) (W.grants_of words.old) self.old) }
        ensures leads { ConnectsAnyBy (W.frames_of words.old) (W.grants_of words.old) self.old result self.new }
        ensures made { Makes W.makes words.old result.access words.new }
        ensures stays { (held : List Hold) → AccessIn held result.access }
        ensures dom { dom_of self.new ≡ dom_of self.old }
        ensures part { part_of self.new ≡ part_of self.old }
        ensures ends { AfterConnect result.done self.new }
        ensures came { rings self.old ≡ true → Came result.done self.new }
    {
        self.joined = false;
        let turn = self.map.step(words);
        let access = turn.access;
        let Some(end) = turn.done else {
            return Turn { access, done: None };
        };
        self.map = MapStep::new(self.dom, GrantRef(0), Mode::Write);
        match end {
            Ok(hold) => {
                self.event_page = hold;
                self.kept = and_event(self.kept);
                self.stage = Stage::Prod;
                Turn { access, done: None }
            }
            Err(refusal) => {
                self.stage = Stage::Rest;
                Turn {
                    access,
                    done: Some(Err(refusal)),
                }
            }
        }
    }

    // The load of in_prod.
    fn prod_step<W: Words>(&mut self, words: &mut W) -> Turn<Result<(), GrantRefusal>>
        requires stage { self.old.stage ≡ stage.Prod }
        requires may { MayConnectBy (W.may words.old) (W.frames_of words.old) (W.grants_of words.old) None 0 self.old }
        ensures leads { (frames grants : ℕ) (ring : Option ℕ) (event : ℕ) → ConnectsOn frames grants ring event self.old result self.new }
        ensures made { Makes W.makes words.old result.access words.new }
        ensures stays { AccessIn (held_of self.old) result.access }
        ensures dom { dom_of self.new ≡ dom_of self.old }
        ensures part { part_of self.new ≡ part_of self.old }
        ensures ends { AfterConnect result.done self.new }
        ensures came { rings self.old ≡ true → Came result.done self.new }
    {
        let at = Place::Cell(self.event_page.dom, self.event_page.frame, IN_PROD);
        let prod = words.load(at);
        self.prod = prod;
        self.joined = true;
        self.stage = Stage::Rest;
        Turn {
            access: Some(Access::Load(at, prod)),
            done: Some(Ok(())),
        }
    }

    /// Makes the next access of a Connect: it maps the ring's page and loads rsp_prod, where it is given a ring, and maps
    /// the event page and loads in_prod; both pages for loads and stores. It begins on a link that holds no page, and what
    /// it mapped is held from then on. Done is Ok with the load of in_prod, or why a page was refused; then the link still
    /// holds the page that was mapped. Where the domain has no entry for the first page, it is done without an access. The
    /// link isn't joined until the Connect ends with Ok.
    pub fn connect_step<W: Words>(
        &mut self,
        words: &mut W,
        ring: Option<GrantRef>,
        event: GrantRef,
    ) -> Turn<Result<(), GrantRefusal>>
        requires { MayConnectBy (W.may words.old) (W.frames_of words.old) (W.grants_of words.old) (refs_of ring) event.0 self.old }
        ensures leads { ConnectsOnBy (W.frames_of words.old) (W.grants_of words.old) (refs_of ring) event.0 self.old result self.new }
        ensures made { Makes W.makes words.old result.access words.new }
        ensures stays { AccessIn (held_of self.old) result.access }
        ensures dom { dom_of self.new ≡ dom_of self.old }
        ensures part { part_of self.new ≡ part_of self.old }
        ensures ends { AfterConnect result.done self.new }
        ensures came { CameBy (refs_of ring) (rings self.old) result.done self.new }
    {
        match self.stage {
            Stage::Ring => self.ring_step(words),
            Stage::Index => self.rsp_step(words, event),
            Stage::Event => self.event_step(words),
            Stage::Prod => self.prod_step(words),
            Stage::Rest | Stage::Take | Stage::Answer | Stage::Sleep | Stage::Raise => match ring {
                Some(gref) => {
                    self.begin(gref, Stage::Ring);
                    self.ring_step(words)
                }
                None => {
                    self.begin(event, Stage::Event);
                    self.event_step(words)
                }
            },
        }
    }

    /// Makes the next access of a Drop: it unmaps the first page that the link holds, the ring's page before the event
    /// page. It is done with the last of them, or without an access where the link holds none.
    pub fn drop_step<W: Words>(&mut self, words: &mut W) -> Turn<()>
        requires idle { idle self.old ≡ true }
        requires may { MayGo (W.may words.old) (drop_left self.old) }
        ensures leads { Leads (drop_left self.old) result.access result.done (drop_left self.new) }
        ensures made { Makes W.makes words.old result.access words.new }
        ensures stays { AccessIn (held_of self.old) result.access }
        ensures held { held_of self.new ≡ rest_of (held_of self.old) }
        ensures dom { dom_of self.new ≡ dom_of self.old }
        ensures part { part_of self.new ≡ part_of self.old }
        ensures apart { is_joined self.new ≡ false }
        ensures idle { idle self.new ≡ true }
    {
        self.joined = false;
        match self.kept {
            Kept::Nothing => Turn {
                access: None,
                done: Some(()),
            },
            Kept::Ring => {
                let access = unmap(&self.ring_page, words);
                self.kept = Kept::Nothing;
                Turn {
                    access: Some(access),
                    done: Some(()),
                }
            }
            Kept::Event => {
                let access = unmap(&self.event_page, words);
                self.kept = Kept::Nothing;
                Turn {
                    access: Some(access),
                    done: Some(()),
                }
            }
            Kept::Both => {
                let first = unmap(&self.ring_page, words);
                self.kept = Kept::Event;
                Turn {
                    access: Some(first),
                    done: None,
                }
            }
        }
    }

    /// Makes the one load of a Look: what requests there are.
    pub fn look_step<W: Words>(&mut self, words: &mut W) -> Turn<Looked>
        requires { MayGo (W.may words.old) (look_plan (page_of self.old) (rsp_of self.old)) }
        ensures turns { (new : Plan Looked) → Turns (look_plan (page_of self.old) (rsp_of self.old)) result.access result.done new }
        ensures done { IsSome result.done }
        ensures made { Makes W.makes words.old result.access words.new }
        ensures stays { length (held_of self.old) ≡ 2 → AccessIn (held_of self.old) result.access }
        ensures same { self.new ≡ self.old }
    {
        let at = Place::Cell(self.ring_page.dom, self.ring_page.frame, REQ_PROD);
        let prod = words.load(at);
        Turn {
            access: Some(Access::Load(at, prod)),
            done: Some(self.ring.look(prod)),
        }
    }

    /// Makes the next load of a Take: the words of the slot of the next request, in order.
    pub fn take_step<W: Words>(&mut self, words: &mut W) -> Turn<[u32; 16]>
        requires { MayGo (W.may words.old) (take_left self.old) }
        ensures turns { Turns (take_left self.old) result.access result.done (take_left self.new) }
        ensures made { Makes W.makes words.old result.access words.new }
        ensures stays { length (held_of self.old) ≡ 2 → AccessIn (held_of self.old) result.access }
        ensures keeps { Keeps self.old self.new }
        ensures joined { joined_of self.new ≡ joined_of self.old }
        ensures rests { OnSome result.done (idle self.new ≡ true) }
    {
        let n = self.taken();
        let at = Place::Cell(
            self.ring_page.dom,
            self.ring_page.frame,
            self.ring.slot_word(n),
        );
        let word = words.load(at);
        self.words[n as usize] = word;
        if n == 15 {
            self.stage = Stage::Rest;
            self.count = 0;
            return Turn {
                access: Some(Access::Load(at, word)),
                done: Some(self.words),
            };
        }
        self.stage = Stage::Take;
        self.count = n + 1;
        Turn {
            access: Some(Access::Load(at, word)),
            done: None,
        }
    }

    /// Makes the next access of an Answer with this reply: its words are stored in the slot of the request, then it
    /// is published, and at last the frontend's event index is loaded. Done tells whether the frontend is notified.
    pub fn answer_step<W: Words>(&mut self, words: &mut W, reply: &[u32; 16]) -> Turn<bool>
        requires { MayGo (W.may words.old) (answer_left self.old reply.now) }
        ensures turns { Turns (answer_left self.old reply.now) result.access result.done (answer_left self.new reply.now) }
        ensures made { Makes W.makes words.old result.access words.new }
        ensures stays { length (held_of self.old) ≡ 2 → AccessIn (held_of self.old) result.access }
        ensures keeps { Keeps self.old self.new }
        ensures joined { joined_of self.new ≡ (if is_some result.done then answered_of (joined_of self.old) else joined_of self.old) }
        ensures rests { OnSome result.done (idle self.new ≡ true) }
    {
        let n = self.answered();
        if n < 16 {
            let at = Place::Cell(
                self.ring_page.dom,
                self.ring_page.frame,
                self.ring.slot_word(n),
            );
            let word = reply[n as usize];
            words.store(at, word);
            self.stage = Stage::Answer;
            self.count = n + 1;
            return Turn {
                access: Some(Access::Store(at, word)),
                done: None,
            };
        }
        if n == 16 {
            let at = Place::Cell(self.ring_page.dom, self.ring_page.frame, RSP_PROD);
            let next = self.ring.rsp().wrapping_add(1);
            words.store(at, next);
            self.stage = Stage::Answer;
            self.count = n + 1;
            return Turn {
                access: Some(Access::Store(at, next)),
                done: None,
            };
        }
        let at = Place::Cell(self.ring_page.dom, self.ring_page.frame, RSP_EVENT);
        let event = words.load(at);
        let old = self.ring.rsp();
        let new = self.ring.answered();
        self.stage = Stage::Rest;
        self.count = 0;
        Turn {
            access: Some(Access::Load(at, event)),
            done: Some(must_notify(old, new, event)),
        }
    }

    /// Makes the next access of a Sleep: it asks to be notified of the next request, and looks once more. Done tells
    /// that no request came.
    pub fn sleep_step<W: Words>(&mut self, words: &mut W) -> Turn<bool>
        requires { MayGo (W.may words.old) (sleep_left self.old) }
        ensures turns { Turns (sleep_left self.old) result.access result.done (sleep_left self.new) }
        ensures made { Makes W.makes words.old result.access words.new }
        ensures stays { length (held_of self.old) ≡ 2 → AccessIn (held_of self.old) result.access }
        ensures keeps { Keeps self.old self.new }
        ensures joined { joined_of self.new ≡ joined_of self.old }
        ensures rests { OnSome result.done (idle self.new ≡ true) }
    {
        let rsp = self.ring.rsp();
        if self.slept() == 0 {
            let at = Place::Cell(self.ring_page.dom, self.ring_page.frame, REQ_EVENT);
            let next = rsp.wrapping_add(1);
            words.store(at, next);
            self.stage = Stage::Sleep;
            self.count = 1;
            return Turn {
                access: Some(Access::Store(at, next)),
                done: None,
            };
        }
        let at = Place::Cell(self.ring_page.dom, self.ring_page.frame, REQ_PROD);
        let prod = words.load(at);
        self.stage = Stage::Rest;
        self.count = 0;
        Turn {
            access: Some(Access::Load(at, prod)),
            done: Some(prod == rsp),
        }
    }
}
