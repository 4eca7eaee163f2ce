//! The backend of a device, whatever its service.

ghost use Rattle.std.specs.Prelude.{◌≡◌, ◌<◌, ◌≤◌, ◌==◌, ◌||◌, [], IfOk, OnErr, Some, false, is_some, length, not, slice_get, true};
ghost use Rattle.device_service.specs.declared.round.Hand.{Hand};
ghost use Rattle.device_service.specs.Activity.{StandsIn, is_answering, is_open, is_working, may_hold};
ghost use Rattle.std.proofs.Props.{props};
ghost use Rattle.device_service.specs.Facts.{stands_prop, wait_prop};
ghost use Rattle.device_service.specs.Nodes.{Ringed};
ghost use Rattle.device_service.specs.Parts as of_parts;
ghost use Rattle.device_service.specs.Raising.{raises_on};
ghost use Rattle.device_service.specs.Waits.{WaitAt};
ghost use Rattle.device_service.specs.Work.{part_in};

mod connecting;
mod raising;
mod serving;

use crate::parts::Parts;
use crate::round::{Hand, Round};
use crate::serve::Serve;
use device_core::Step;
use host_events::Queue;
use pv_words::{DevId, DomId, Hold, HostEvent, HostRefusal, Reason, State, Words};
use std::alloc::{AllocError, Global};
use xenbus_states::{Action, Back, Nodes};

/// What a backend is at.
#[derive(Clone, Copy, Debug, PartialEq, Eq)]
pub enum Activity {
    /// Nothing: it chooses what comes next.
    Between,
    /// A Connect of all parts.
    Connecting,
    /// A Close for this reason: all pages are given up, one after another.
    Leaving(Reason),
    /// A request is taken.
    Taking,
    /// An activity of the service, for the request in hand.
    Working,
    /// One for the oldest of the host's events that wait.
    Serving,
    /// The request in hand is answered.
    Answering,
    /// An event is put into the event page of this part: the oldest that waits, or one that is owed.
    Raising(u8),
    /// A Sleep over all parts.
    Sleeping,
}

/// A device's connection to a frontend, its service, and how far its work has come.
#[derive(Drop)]
pub struct Backend<S: Serve + Drop> {
    dev: DevId,
    dom: DomId,
    connection: Back,
    // The nodes as they stood when the frontend last set its state, and those that the last Connect read.
    seen: Nodes,
    read: Nodes,
    parts: Parts,
    // The connection is closed, and the state is to be said.
    closing: bool,
    // The reason for which it is to be closed.
    kept: Option<Reason>,
    // The request in hand, and the words that an Answer or a Raise under way stores.
    hand: Option<Hand>,
    outgoing: [u32; 16],
    // The part of the last Look that found requests, and how many are left of them.
    at: u8,
    left: u32,
    round: Round,
    // The host's events that wait, oldest first.
    waiting: Queue<S::Event>,
    // The one of them that a Raise is for; none where it is for an event that is owed.
    cause: Option<S::Event>,
    service: S,
    activity: Activity,
    ghost dom_is: { of_parts.dom_of parts ≡ dom.0 },
    ghost kind_is: { of_parts.kind_of parts ≡ S.service.kind },
    ghost stands: { StandsIn activity closing connection.back (of_parts.doing_of parts) at hand } by { Prim.hlevel (props, stands_prop) },
    ghost raises: { raises_on activity outgoing parts ≡ true },
    ghost at_in: { at < of_parts.count_of parts },
    ghost round_in: { part_in round < of_parts.count_of parts },
    ghost hand_in: { (h : Hand) → hand ≡ Some h → h.part < of_parts.count_of parts },
    ghost rung: { is_some hand ≡ true → S.service.kind ≡ Ringed },
    ghost waits: { WaitAt S.service.at (of_parts.count_of parts) waiting } by { Prim.hlevel (props, wait_prop) },
    ghost of_domain: { is_working activity ≡ true → S.is_of dom.0 service ≡ true },
    ghost works: { S.going service ≡ is_working activity },
    ghost bare: { may_hold activity (is_open activity closing connection.back) ≡ false → S.service.pages (S.knows service) ≡ [] },
    ghost ready: { is_answering activity ≡ true → S.service.ready (S.knows service) ≡ true },
}

impl<S: Serve + Drop> Backend<S> {
    ghost use Rattle.std.specs.Prelude.{ℕ};
    ghost use Rattle.pv_words.specs.Plan.{Makes};
    ghost use Rattle.host_events.specs.Queue.{refusal_in};
    ghost use Rattle.link_core.specs.Stays.{AccessIn};
    ghost use Rattle.device_core.specs.Order.{Between, Heard, Hosts, MayChoose, at_rest, next, rests_next};
    ghost use Rattle.device_core.specs.Site.{Site};
    ghost use Rattle.device_service.specs.declared.backend.Activity.TheVariants as activity;
    ghost use Rattle.device_service.specs.Held.{HoldsAsMany, HoldsPage};
    ghost use Rattle.device_service.specs.Waits.{IsFor};
    ghost use Rattle.device_service.specs.Service.{IsFresh};
    ghost use Rattle.device_service.specs.Stand.{MayStepAt, Same, StepsAt, dev_of, dom_of, held_of, parts_of, stand_of, work_of};
    ghost use Rattle.device_service.specs.Steps.{Chooses, HearsAt, chosen, site_over};
    ghost use Rattle.device_service.specs.Work.{choice, device, first_work, refused_at};

    /// The backend of the device of this number, of so many parts and of this domain, which waits for its frontend.
    pub fn new(
        alloc: Global,
        dev: DevId,
        dom: DomId,
        parts: u8,
        service: S,
    ) -> Result<Backend<S>, AllocError>
        requires some { 1 ≤ parts }
        requires few { parts ≤ 4 }
        requires idle { S.going service ≡ false }
        requires fresh { IsFresh S.service (S.knows service) }
        ensures between { IfOk result (λ d. (site : Site) → stand_of site d ≡ Between (first_work (S.knows service))) }
        ensures dev { IfOk result (λ d. dev_of d ≡ dev.0) }
        ensures dom { IfOk result (λ d. dom_of d ≡ dom.0) }
        ensures parts { IfOk result (λ d. parts_of d ≡ parts) }
        ensures held { IfOk result (λ d. held_of d ≡ []) }
    {
        let parts = Parts::new(alloc, dom, parts, S::is_ringed())?;
        let waiting = Queue::new(alloc)?;
        Ok(Backend {
            dev,
            dom,
            connection: Back::new(),
            seen: Nodes::new(),
            read: Nodes::new(),
            parts,
            closing: false,
            kept: None,
            hand: None,
            outgoing: [0; 16],
            at: 0,
            left: 0,
            round: Round::Looks(0, false),
            waiting,
            cause: None,
            service,
            activity: Activity::Between,
        })
    }

    /// How many parts it has.
    pub fn parts(&self) -> u8
        ensures { result ≡ parts_of self.now }
    {
        self.parts.len()
    }

    /// Hears that the frontend set its state, while its nodes stand so.
    pub fn bus(&mut self, front: State, nodes: &Nodes)
        ensures hears { (site : Site) → HearsAt site self.old front nodes.now self.new }
        ensures held { held_of self.new ≡ held_of self.old }
        ensures same { Same self.old self.new }
    {
        self.connection.front_set(front);
        self.seen = *nodes;
    }

    /// Hears an event of the host, which waits until it is done; room for 64 is taken with the backend. The refusals are
    /// NotConnected exactly where the backend isn't Connected, and else Full exactly where 64 wait; a refusal changes nothing.
    pub fn host(&mut self, e: HostEvent) -> Result<(), HostRefusal>
        requires { IsFor S.service (parts_of self.old) e }
        ensures hears { (site : Site) → stand_of site self.new ≡ next (device S.service site) (stand_of site self.old) (Heard (Hosts e)) }
        ensures refusal { refusal_in result ≡ refused_at S.service (work_of self.old) e }
        ensures err { OnErr result (self.new ≡ self.old) }
        ensures held { held_of self.new ≡ held_of self.old }
        ensures same { Same self.old self.new }
    {
        match self.connection.back() {
            State::Connected => {}
            _ => return Err(HostRefusal::NotConnected),
        }
        let Some(event) = S::event_of(&e) else {
            unreachable!();
        };
        self.waiting.push(event)
    }

    /// How many pages it holds: as many as its accesses hold, by whatever it came to stand there.
    pub fn held(&self) -> u32
        ensures count { result ≡ length (held_of self.now) }
        ensures holds { HoldsAsMany self.now result }
    {
        S::keeps_laws();
        S::tells_held();
        self.service.held() + self.parts.held()
    }

    /// The page at this place of those that it holds: those of its service, and those of its parts, in order, the ring's page before
    /// the event page. It is one of those that its accesses hold.
    pub fn hold_at(&self, i: u32) -> Hold
        requires { i < length (held_of self.now) }
        ensures place { slice_get (held_of self.now) i ≡ Some result }
        ensures holds { HoldsPage self.now result }
    {
        S::keeps_laws();
        S::tells_held();
        let served = self.service.held();
        if i < served {
            return self.service.hold_at(i);
        }
        self.parts.hold_at(i - served)
    }

    /// Makes the next step: at most one access, and what is said with it. A step with neither is idle; it comes exactly where the
    /// order of work has nothing left. An access to a cell lies in the frame of a page that the backend holds before the step, and
    /// one that may write in a page that is held for writing.
    pub fn step<W: Words>(&mut self, words: &mut W) -> Step
        requires { MayStepAt (W.may words.old) (site_over W.Words words.old self.old) self.old }
        ensures steps { StepsAt (site_over W.Words words.old self.old) self.old result.access result.said self.new }
        ensures made { Makes W.makes words.old result.access words.new }
        ensures stays { AccessIn (held_of self.old) result.access }
        ensures same { Same self.old self.new }
    {
        match self.activity {
            Activity::Between => self.begin(words),
            Activity::Connecting => self.connect(words),
            Activity::Leaving(why) => self.leave(words, why),
            Activity::Taking => self.take(words),
            Activity::Working => self.work(words),
            Activity::Serving => self.go_on_serving(words),
            Activity::Answering => self.answer(words),
            Activity::Raising(part) => self.raise(words, part),
            Activity::Sleeping => self.sleep(words),
        }
    }

    // The first step of what comes next between two activities.
    fn begin<W: Words>(&mut self, words: &mut W) -> Step
        requires between { self.old.activity ≡ activity.Between }
        requires may { MayChoose (W.may words.old) (chosen (site_over W.Words words.old self.old) self.old) }
        ensures begins { Chooses (site_over W.Words words.old self.old) self.old result.access result.said self.new }
        ensures made { Makes W.makes words.old result.access words.new }
        ensures stays { AccessIn (held_of self.old) result.access }
        ensures same { Same self.old self.new }
    {
        if self.closing {
            return self.enter(State::Closed);
        }
        if let Some(why) = self.kept {
            return self.close(words, why);
        }
        if let Some(part) = self.owed() {
            return self.pay(words, part);
        }
        match self.connection.action() {
            Action::Connect => self.begin_connect(words),
            Action::Close(s) => self.close(words, Reason::Asked(s)),
            Action::Renew => self.enter(State::InitWait),
            Action::Stay => match self.connection.back() {
                State::Connected => self.serve(words),
                _ => idle(),
            },
        }
    }

    // Whether something is to be done between two activities.
    fn chooses(&self) -> bool
        requires { self.now.activity ≡ activity.Between }
        ensures { (site : Site) → result ≡ not (rests_next (choice S.service site (work_of self.now))) }
    {
        if self.closing {
            return true;
        }
        if self.kept.is_some() {
            return true;
        }
        if self.owed().is_some() {
            return true;
        }
        match self.connection.action() {
            Action::Stay => match self.connection.back() {
                State::Connected => self.is_busy(),
                _ => false,
            },
            _ => true,
        }
    }

    /// Whether the next step isn't idle.
    pub fn due(&self) -> bool
        ensures { (site : Site) → site.parts ≡ parts_of self.now → result ≡ not (at_rest (device S.service site) (stand_of site self.now)) }
    {
        match self.activity {
            Activity::Between => self.chooses(),
            _ => true,
        }
    }
}

// A step with nothing.
fn idle() -> Step
    ensures access { result.access ≡ None }
    ensures said { result.said ≡ None }
{
    Step {
        access: None,
        said: None,
    }
}
