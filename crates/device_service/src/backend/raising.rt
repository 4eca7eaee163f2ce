//! An event is put into the event page of a part: the oldest that waits, or one that the service owes.

ghost use Rattle.std.specs.Prelude.{◌≡◌, ◌<◌, None, Some, false, true};
ghost use Rattle.device_service.specs.Activity.{MayServe, is_open};
ghost use Rattle.device_service.specs.Parts as of_parts;
ghost use Rattle.device_service.specs.Raising.{IsOwed, OwesNothing, has_left, raised_in};
ghost use Rattle.device_service.specs.Work.{waits_after};

use super::{Activity, Backend};
use crate::serve::Serve;
use device_core::Step;
use host_events::Queue;
use link_core::{EVENT_LIMIT, Put};
use pv_words::{Reason, Said, State, Words};

// The event that a Raise was for waits no longer; one that was owed never did.
fn drop_done<V: Copy>(waiting: &mut Queue<V>, cause: Option<V>)
    ensures { waiting.new ≡ waits_after cause waiting.old }
{
    if let Some(_) = cause {
        waiting.drop_oldest();
    }
}

impl<S: Serve + Drop> Backend<S> {
    ghost use Rattle.std.specs.Prelude.{ℕ};
    ghost use Rattle.pv_words.specs.Plan.{MayGo, Makes};
    ghost use Rattle.link_core.specs.Stays.{AccessIn};
    ghost use Rattle.device_core.specs.Order.{MayChoose};
    ghost use Rattle.device_core.specs.Site.{Site};
    ghost use Rattle.device_service.specs.declared.backend.Activity.TheVariants as activity;
    ghost use Rattle.device_service.specs.Stand.{BeginsAt, RaisesOn, Same, held_of, pays_at, raise_left, raises_at, work_of};
    ghost use Rattle.device_service.specs.Steps.{site_over};
    ghost use Rattle.device_service.specs.Work.{raise_said};

    // The part to which an event is owed, where it is connected.
    pub(super) fn owed(&self) -> Option<u8>
        requires between { self.now.activity ≡ activity.Between }
        requires closing { self.now.closing ≡ false }
        ensures some { (part : ℕ) → result ≡ Some part → IsOwed S.service (S.knows self.now.service) self.now.parts part }
        ensures none { result ≡ None → OwesNothing S.service (work_of self.now) }
    {
        let Some(part) = self.service.owed_part() else {
            return None;
        };
        match self.connection.back() {
            State::Connected => {}
            _ => return None,
        }
        if part >= self.parts.len() {
            return None;
        }
        Some(part)
    }

    // The first step of a Raise of the event that is owed to this part.
    pub(super) fn pay<W: Words>(&mut self, words: &mut W, part: u8) -> Step
        requires between { self.old.activity ≡ activity.Between }
        requires opened { is_open self.old.activity self.old.closing self.old.connection.back ≡ true }
        requires owed { IsOwed S.service (S.knows self.old.service) self.old.parts part }
        requires may { MayChoose (W.may words.old) (pays_at (site_over W.Words words.old self.old) self.old) }
        ensures begins { (site : Site) → BeginsAt site (pays_at site self.old) result.access result.said self.new }
        ensures made { Makes W.makes words.old result.access words.new }
        ensures stays { AccessIn (held_of self.old) result.access }
        ensures same { Same self.old self.new }
    {
        let prod = self.parts.in_prod(part);
        let outgoing = self.service.owed_words(prod);
        self.begin_raise(words, part, None, outgoing)
    }

    // The first step of a Raise of these words in this part, or of a Close where its in_prod is spent.
    pub(super) fn begin_raise<W: Words>(
        &mut self,
        words: &mut W,
        part: u8,
        cause: Option<S::Event>,
        outgoing: [u32; 16],
    ) -> Step
        requires between { self.old.activity ≡ activity.Between }
        requires opened { is_open self.old.activity self.old.closing self.old.connection.back ≡ true }
        requires part { part < of_parts.count_of self.old.parts }
        requires may { MayChoose (W.may words.old) (raises_at self.old cause part outgoing) }
        ensures begins { (site : Site) → BeginsAt site (raises_at self.old cause part outgoing) result.access result.said self.new }
        ensures made { Makes W.makes words.old result.access words.new }
        ensures stays { AccessIn (held_of self.old) result.access }
        ensures same { Same self.old self.new }
    {
        let prod = self.parts.in_prod(part);
        if prod >= EVENT_LIMIT {
            return self.close(words, Reason::Spent(prod));
        }
        self.outgoing = outgoing;
        self.cause = cause;
        self.raise(words, part)
    }

    // The next access of a Raise in this part.
    pub(super) fn raise<W: Words>(&mut self, words: &mut W, part: u8) -> Step
        requires serving { MayServe self.old.activity (activity.Raising part) }
        requires opened { is_open self.old.activity self.old.closing self.old.connection.back ≡ true }
        requires part { part < of_parts.count_of self.old.parts }
        requires begun { has_left (raise_left self.old part) ≡ true }
        requires may { MayGo (W.may words.old) (raise_left self.old part) }
        ensures goes { (site : Site) → RaisesOn site self.old part result.access result.said self.new }
        ensures made { Makes W.makes words.old result.access words.new }
        ensures stays { AccessIn (held_of self.old) result.access }
        ensures same { Same self.old self.new }
    {
        let turn = self.parts.raise_step(words, part, &self.outgoing);
        let access = turn.access;
        let Some(put) = turn.done else {
            self.activity = Activity::Raising(part);
            return Step { access, said: None };
        };
        self.activity = Activity::Between;
        let said = self.raised(part, put);
        Step { access, said }
    }

    // What a Raise in this part came to, and what is said of it.
    fn raised(&mut self, part: u8, put: Put) -> Option<Said>
        requires between { self.old.activity ≡ activity.Between }
        requires opened { is_open self.old.activity self.old.closing self.old.connection.back ≡ true }
        ensures said { result ≡ raise_said S.service (work_of self.old) part self.old.cause put }
        ensures work { work_of self.new ≡ raised_in S.service (work_of self.old) part self.old.cause put }
        ensures between { self.new.activity ≡ activity.Between }
        ensures same { Same self.old self.new }
    {
        match put {
            Put::Done => {
                let said = self.service.put(self.cause);
                drop_done(&mut self.waiting, self.cause);
                Some(said)
            }
            Put::Full => {
                self.service.found_full(self.cause);
                drop_done(&mut self.waiting, self.cause);
                Some(Said::Full(part))
            }
            Put::BadCons(prod, cons) => {
                self.kept = Some(Reason::BadCons(prod, cons));
                None
            }
            Put::Spent(prod) => {
                self.kept = Some(Reason::Spent(prod));
                None
            }
        }
    }
}
