//! What a connected backend does: it serves requests and its host's events, and sleeps.

ghost use Rattle.std.specs.Prelude.{◌≡◌, ◌<◌, None, Some, is_some, length, not, slice_get, true, false};
ghost use Rattle.device_service.specs.Activity.{MayServe, hand_part, is_open};
ghost use Rattle.device_service.specs.Nodes.{Ringed};
ghost use Rattle.device_service.specs.Parts as of_parts;
ghost use Rattle.device_service.specs.Rows.{hand_in};
ghost use Rattle.device_service.specs.Work.{next_look, part_in};

use super::{Activity, Backend, idle};
use crate::deed::Now;
use crate::round::{Hand, Round};
use crate::serve::Serve;
use device_core::Step;
use pv_words::{Reason, Said, Words};
use ring_words::Looked;

// The request of these words, by this part.
fn hand_of(part: u8, words: &[u32; 16]) -> Hand
    ensures { result ≡ hand_in part words.now }
{
    let head = words[0];
    Hand {
        part,
        id: (head & 0xffff) as u16,
        op: ((head >> 16) & 0xff) as u8,
    }
}

// The place in the round after a Look at this part, of so many.
fn next_look(parts: u8, part: u8, served: bool) -> Round
    requires { part < parts }
    ensures exact { result ≡ next_look parts part served }
    ensures within { part_in result < parts }
{
    if part + 1 < parts {
        return Round::Looks(part + 1, served);
    }
    if served {
        Round::Looks(0, false)
    } else {
        Round::Sleeps
    }
}

impl<S: Serve + Drop> Backend<S> {
    ghost use Rattle.pv_words.specs.Plan.{MayGo, Makes, mapped};
    ghost use Rattle.link_core.specs.Stays.{AccessIn};
    ghost use Rattle.device_core.specs.Order.{MayChoose, rests_next};
    ghost use Rattle.device_core.specs.Site.{Site};
    ghost use Rattle.device_service.specs.declared.backend.Activity.TheVariants as activity;
    ghost use Rattle.device_service.specs.declared.round.Round.TheVariants as round;
    ghost use Rattle.device_service.specs.Stand.{Same, held_of, parts_of, work_of};
    ghost use Rattle.device_service.specs.Steps.{Decides, GoesAt, LooksAtPart, ServesEvent, ServesNext, ServesOn, WorksOn};
    ghost use Rattle.device_service.specs.Steps.{answer_left, decided, event_served, first_answer, look_left, served, site_over};
    ghost use Rattle.device_service.specs.Steps.{sleep_left, take_left, work_left};
    ghost use Rattle.device_service.specs.Work.{Answered, Done, Own, Saw, Slept, Took, decides_by, device, looks_at, serves_by, with_hand};

    // The first step of what comes next while all parts are connected.
    pub(super) fn serve<W: Words>(&mut self, words: &mut W) -> Step
        requires between { self.old.activity ≡ activity.Between }
        requires opened { is_open self.old.activity self.old.closing self.old.connection.back ≡ true }
        requires may { MayChoose (W.may words.old) (served (site_over W.Words words.old self.old) self.old) }
        ensures begins { ServesNext (site_over W.Words words.old self.old) self.old result.access result.said self.new }
        ensures made { Makes W.makes words.old result.access words.new }
        ensures stays { AccessIn (held_of self.old) result.access }
        ensures same { Same self.old self.new }
    {
        if let Some(hand) = self.hand {
            if self.service.is_ready() {
                return self.reply(words);
            }
            return self.decide(words, hand);
        }
        if let Some(event) = self.waiting.oldest() {
            return self.begin_serving(words, event);
        }
        if !S::is_ringed() {
            return idle();
        }
        if self.left > 0 {
            return self.take(words);
        }
        match self.round {
            Round::Looks(part, served) => self.look(words, part, served),
            Round::Sleeps => self.sleep(words),
            Round::Idles => {
                self.round = Round::Looks(0, false);
                idle()
            }
        }
    }

    // Whether there is something to be done while all parts are connected.
    pub(super) fn is_busy(&self) -> bool
        requires between { self.now.activity ≡ activity.Between }
        requires opened { is_open self.now.activity self.now.closing self.now.connection.back ≡ true }
        ensures { (site : Site) → result ≡ not (rests_next (with_hand S.service site (work_of self.now) self.now.hand)) }
    {
        if self.hand.is_some() {
            return true;
        }
        if self.waiting.oldest().is_some() {
            return true;
        }
        if !S::is_ringed() {
            return false;
        }
        if self.left > 0 {
            return true;
        }
        match self.round {
            Round::Looks(part, served) => true,
            Round::Sleeps => true,
            Round::Idles => false,
        }
    }

    // The first step of what the request in hand leads to, or of its answer where memory is wanting.
    fn decide<W: Words>(&mut self, words: &mut W, hand: Hand) -> Step
        requires between { self.old.activity ≡ activity.Between }
        requires opened { is_open self.old.activity self.old.closing self.old.connection.back ≡ true }
        requires hand { self.old.hand ≡ Some hand }
        requires works { S.service.ready (S.knows self.old.service) ≡ false }
        requires may { MayChoose (W.may words.old) (decided (site_over W.Words words.old self.old) self.old hand.part) }
        ensures begins { Decides (site_over W.Words words.old self.old) self.old hand.part result.access result.said self.new }
        ensures made { Makes W.makes words.old result.access words.new }
        ensures stays { AccessIn (held_of self.old) result.access }
        ensures same { Same self.old self.new }
    {
        let deed = self.service.begin(self.dom, self.parts.len(), words);
        let (access, said) = (deed.access, deed.said);
        match deed.now {
            Now::Answers => self.reply(words),
            Now::GoesOn => {
                self.activity = Activity::Working;
                Step { access, said }
            }
            Now::Over => Step { access, said },
        }
    }

    // The next access of an activity of the service, for the request in hand.
    pub(super) fn work<W: Words>(&mut self, words: &mut W) -> Step
        requires working { self.old.activity ≡ activity.Working }
        requires may { MayGo (W.may words.old) (work_left (site_over W.Words words.old self.old) self.old) }
        ensures goes { WorksOn (site_over W.Words words.old self.old) self.old result.access result.said self.new }
        ensures made { Makes W.makes words.old result.access words.new }
        ensures stays { AccessIn (held_of self.old) result.access }
        ensures same { Same self.old self.new }
    {
        let deed = self.service.go_on(self.dom, self.parts.len(), words);
        let (access, said) = (deed.access, deed.said);
        match deed.now {
            Now::GoesOn => {}
            _ => self.activity = Activity::Between,
        }
        Step { access, said }
    }

    // The first step of what the oldest waiting event leads to.
    fn begin_serving<W: Words>(&mut self, words: &mut W, event: S::Event) -> Step
        requires between { self.old.activity ≡ activity.Between }
        requires opened { is_open self.old.activity self.old.closing self.old.connection.back ≡ true }
        requires hand { self.old.hand ≡ None }
        requires oldest { slice_get self.old.waiting 0 ≡ Some event }
        requires may { MayChoose (W.may words.old) (event_served self.old event) }
        ensures begins { ServesEvent (site_over W.Words words.old self.old) self.old event result.access result.said self.new }
        ensures made { Makes W.makes words.old result.access words.new }
        ensures stays { AccessIn (held_of self.old) result.access }
        ensures same { Same self.old self.new }
    {
        let part = S::part_of(event);
        let prod = self.parts.in_prod(part);
        if let Some(outgoing) = self.service.event_words(event, prod) {
            return self.begin_raise(words, part, Some(event), outgoing);
        }
        let deed = self.service.serve(self.dom, self.parts.len(), words, event);
        let (access, said) = (deed.access, deed.said);
        match deed.now {
            Now::GoesOn => self.activity = Activity::Serving,
            _ => self.waiting.drop_oldest(),
        }
        Step { access, said }
    }

    // The next access of an activity of the service, for the oldest waiting event.
    pub(super) fn go_on_serving<W: Words>(&mut self, words: &mut W) -> Step
        requires serving { self.old.activity ≡ activity.Serving }
        requires may { MayGo (W.may words.old) (work_left (site_over W.Words words.old self.old) self.old) }
        ensures goes { ServesOn (site_over W.Words words.old self.old) self.old result.access result.said self.new }
        ensures made { Makes W.makes words.old result.access words.new }
        ensures stays { AccessIn (held_of self.old) result.access }
        ensures same { Same self.old self.new }
    {
        let deed = self.service.go_on(self.dom, self.parts.len(), words);
        let (access, said) = (deed.access, deed.said);
        match deed.now {
            Now::GoesOn => {}
            _ => {
                self.waiting.drop_oldest();
                self.activity = Activity::Between;
            }
        }
        Step { access, said }
    }

    // The first access of an Answer.
    fn reply<W: Words>(&mut self, words: &mut W) -> Step
        requires between { self.old.activity ≡ activity.Between }
        requires opened { is_open self.old.activity self.old.closing self.old.connection.back ≡ true }
        requires hand { is_some self.old.hand ≡ true }
        requires ready { S.service.ready (S.knows self.old.service) ≡ true }
        requires may { MayGo (W.may words.old) (first_answer self.old) }
        ensures goes { (site : Site) → GoesAt site (mapped Answered (first_answer self.old)) self.old result.access result.said self.new }
        ensures made { Makes W.makes words.old result.access words.new }
        ensures stays { AccessIn (of_parts.held_of self.old.parts) result.access }
        ensures same { Same self.old self.new }
    {
        self.outgoing = self.service.reply();
        self.answer(words)
    }

    // The next access of an Answer.
    pub(super) fn answer<W: Words>(&mut self, words: &mut W) -> Step
        requires serving { MayServe self.old.activity activity.Answering }
        requires opened { is_open self.old.activity self.old.closing self.old.connection.back ≡ true }
        requires hand { is_some self.old.hand ≡ true }
        requires ready { S.service.ready (S.knows self.old.service) ≡ true }
        requires may { MayGo (W.may words.old) (answer_left self.old) }
        ensures goes { (site : Site) → GoesAt site (mapped Answered (answer_left self.old)) self.old result.access result.said self.new }
        ensures made { Makes W.makes words.old result.access words.new }
        ensures stays { AccessIn (of_parts.held_of self.old.parts) result.access }
        ensures same { Same self.old self.new }
    {
        let Some(hand) = self.hand else {
            unreachable!();
        };
        let turn = self.parts.answer_step(words, hand.part, &self.outgoing);
        let access = turn.access;
        let Some(notified) = turn.done else {
            self.activity = Activity::Answering;
            return Step { access, said: None };
        };
        let status = self.service.answered();
        self.hand = None;
        self.activity = Activity::Between;
        let said = Some(Said::Replied(hand.part, hand.id, status, notified));
        Step { access, said }
    }

    // The next access of a Take.
    pub(super) fn take<W: Words>(&mut self, words: &mut W) -> Step
        requires serving { MayServe self.old.activity activity.Taking }
        requires opened { is_open self.old.activity self.old.closing self.old.connection.back ≡ true }
        requires hand { self.old.hand ≡ None }
        requires ringed { S.service.kind ≡ Ringed }
        requires may { MayGo (W.may words.old) (of_parts.take_left self.old.at self.old.parts) }
        ensures goes { (site : Site) → GoesAt site (take_left self.old) self.old result.access result.said self.new }
        ensures made { Makes W.makes words.old result.access words.new }
        ensures stays { AccessIn (held_of self.old) result.access }
        ensures same { Same self.old self.new }
    {
        let turn = self.parts.take_step(words, self.at);
        let access = turn.access;
        let Some(taken) = turn.done else {
            self.activity = Activity::Taking;
            return Step { access, said: None };
        };
        let hand = hand_of(self.at, &taken);
        self.service.take(self.at, &taken);
        self.hand = Some(hand);
        self.left = self.left.saturating_sub(1);
        self.activity = Activity::Between;
        let said = Some(Said::Request(hand.part, hand.id, hand.op));
        Step { access, said }
    }

    // The next access of a Sleep.
    pub(super) fn sleep<W: Words>(&mut self, words: &mut W) -> Step
        requires serving { MayServe self.old.activity activity.Sleeping }
        requires opened { is_open self.old.activity self.old.closing self.old.connection.back ≡ true }
        requires hand { self.old.hand ≡ None }
        requires ringed { S.service.kind ≡ Ringed }
        requires may { MayGo (W.may words.old) (of_parts.sleep_left self.old.parts) }
        ensures goes { (site : Site) → GoesAt site (sleep_left self.old) self.old result.access result.said self.new }
        ensures made { Makes W.makes words.old result.access words.new }
        ensures stays { AccessIn (held_of self.old) result.access }
        ensures same { Same self.old self.new }
    {
        let turn = self.parts.sleep_step(words);
        let access = turn.access;
        let Some(quiet) = turn.done else {
            self.activity = Activity::Sleeping;
            return Step { access, said: None };
        };
        self.round = if quiet {
            Round::Idles
        } else {
            Round::Looks(0, false)
        };
        self.activity = Activity::Between;
        Step { access, said: None }
    }

    // The one access of a Look at this part.
    fn look<W: Words>(&mut self, words: &mut W, part: u8, served: bool) -> Step
        requires between { self.old.activity ≡ activity.Between }
        requires opened { is_open self.old.activity self.old.closing self.old.connection.back ≡ true }
        requires hand { self.old.hand ≡ None }
        requires round { self.old.round ≡ round.Looks part served }
        requires ringed { S.service.kind ≡ Ringed }
        requires may { MayGo (W.may words.old) (look_left self.old part) }
        ensures goes { (site : Site) → LooksAtPart site self.old part result.access result.said self.new }
        ensures made { Makes W.makes words.old result.access words.new }
        ensures stays { AccessIn (held_of self.old) result.access }
        ensures same { Same self.old self.new }
    {
        let turn = self.parts.look_step(words, part);
        let access = turn.access;
        let Some(looked) = turn.done else {
            unreachable!();
        };
        match looked {
            Looked::Nothing => self.round = next_look(self.parts.len(), part, served),
            Looked::Ready(requests) => {
                self.left = requests;
                self.at = part;
                self.round = next_look(self.parts.len(), part, true);
            }
            Looked::Overrun(prod, rsp) => self.kept = Some(Reason::Overrun(prod, rsp)),
        }
        Step { access, said: None }
    }
}
