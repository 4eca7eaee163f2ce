//! A device maps a grant entry, and unmaps it.

ghost use Rattle.std.specs.Prelude.{◌≡◌, ◌<◌, ℕ, false, Some, None, is_some};
ghost use Rattle.pv_words.specs.Held.{in_use};
ghost use Rattle.pv_words.specs.Plan.{wanted};
ghost use Rattle.pv_words.specs.Flags.{refusal_of};
ghost use Rattle.pv_words.specs.Mapping.{unmap_want};

use crate::access::{Access, Turn};
use crate::grant::{GrantRefusal, Hold, Mode};
use crate::place::{DomId, Frame, GrantRef, Half, Place};
use crate::words::Words;

/// A bit of the flags: the grant is read-only.
const READ_ONLY: u32 = 4;

/// The in-use bits of the flags: 8 reading, 16 writing.
const READING: u32 = 8;

const WRITING: u32 = 16;

/// A bit of the flags: a part of a page is granted.
const SUB_PAGE: u32 = 256;

// What a map does next.
#[derive(Clone, Copy)]
enum MapStage {
    // It loads the flags.
    Start,
    // It sets the in-use bits in these flags.
    Begin(u16),
    // It loads the frame.
    Name,
    // It clears the in-use bits, since the domain has no such frame.
    Undo(u32),
    Over(Result<Hold, GrantRefusal>),
}

/// A map of one grant entry: how far it has come. Each step makes the next access.
#[derive(Drop)]
pub struct MapStep {
    dom: DomId,
    gref: GrantRef,
    mode: Mode,
    stage: MapStage,
}

// The in-use bits of a mapping.
fn bits_of(mode: Mode) -> u32
    ensures exact { result ≡ in_use mode }
    ensures small { result < 32 }
{
    match mode {
        Mode::Read => READING,
        Mode::Write => READING | WRITING,
    }
}

// Why a flags' word refuses to be mapped. One that doesn't has domid 0, so that it is the flags alone.
fn refusal_of(word: u32, mode: Mode) -> Option<GrantRefusal>
    ensures exact { result ≡ refusal_of word mode }
    ensures small { result ≡ None → word < 65536 }
{
    if word % 4 != 1 || word & SUB_PAGE != 0 {
        return Some(GrantRefusal::NotPermitted(word));
    }
    if word / 65536 != 0 {
        return Some(GrantRefusal::OtherDomain(word));
    }
    let writes = match mode {
        Mode::Read => false,
        Mode::Write => true,
    };
    if writes && word & READ_ONLY != 0 {
        return Some(GrantRefusal::ReadOnly(word));
    }
    if word & (READING | WRITING) != 0 {
        return Some(GrantRefusal::InUse(word));
    }
    None
}

impl MapStep {
    ghost use Rattle.pv_words.specs.Plan.{MayGo, Makes};
    ghost use Rattle.pv_words.specs.declared.map.MapStage.TheVariants as stage;
    ghost use Rattle.pv_words.specs.Mapping.{hold_of, HoldsByAccess, IsAtEntry, Wins};
    ghost use Rattle.pv_words.specs.MapLeft.{map_left_by, AdvancesBy, BeginsMap, dom_of, gref_of, mode_of, is_over};

    /// A map of this entry of the domain's grant table, before its first access.
    pub fn new(dom: DomId, gref: GrantRef, mode: Mode) -> MapStep
        ensures whole { BeginsMap dom.0 gref.0 mode result }
        ensures dom { dom_of result ≡ dom.0 }
        ensures entry { (gref_of result ≡ gref.0) × (mode_of result ≡ mode) }
        ensures begins { is_over result ≡ false }
    {
        MapStep {
            dom,
            gref,
            mode,
            stage: MapStage::Start,
        }
    }

    // The hold that it comes to.
    fn hold(&self, frame: u32) -> Hold
        ensures { result ≡ hold_of self.now.dom.0 self.now.gref.0 self.now.mode frame }
    {
        Hold {
            dom: self.dom,
            gref: self.gref,
            frame: Frame(frame),
            mode: self.mode,
        }
    }

    // The map goes on.
    fn goes_on(&mut self, access: Access, next: MapStage) -> Turn<Result<Hold, GrantRefusal>>
        ensures access { result.access ≡ Some access }
        ensures done { result.done ≡ None }
        ensures left { self.new ≡ record { dom = self.old.dom; gref = self.old.gref; mode = self.old.mode; stage = next } }
    {
        self.stage = next;
        Turn {
            access: Some(access),
            done: None,
        }
    }

    // The map is done.
    fn ends(
        &mut self,
        access: Option<Access>,
        end: Result<Hold, GrantRefusal>,
    ) -> Turn<Result<Hold, GrantRefusal>>
        ensures access { result.access ≡ access }
        ensures done { result.done ≡ Some end }
        ensures left { self.new ≡ record { dom = self.old.dom; gref = self.old.gref; mode = self.old.mode; stage = stage.Over end } }
    {
        self.stage = MapStage::Over(end);
        Turn {
            access,
            done: Some(end),
        }
    }

    // The first access, where the domain has the entry: the load of the flags.
    fn start<W: Words>(&mut self, words: &mut W) -> Turn<Result<Hold, GrantRefusal>>
        requires start { self.old.stage ≡ stage.Start }
        requires may { MayGo (W.may words.old) (map_left_by (W.frames_of words.old) (W.grants_of words.old) self.old) }
        ensures advances { AdvancesBy (W.frames_of words.old) (W.grants_of words.old) self.old result.access result.done self.new }
        ensures made { Makes W.makes words.old result.access words.new }
        ensures dom { dom_of self.new ≡ dom_of self.old }
        ensures entry { (gref_of self.new ≡ gref_of self.old) × (mode_of self.new ≡ mode_of self.old) }
        ensures over { is_over self.new ≡ is_some result.done }
        ensures stays { IsAtEntry (dom_of self.old) (gref_of self.old) result.access }
        ensures held { HoldsByAccess result.access result.done }
        ensures won { Wins (dom_of self.old) (gref_of self.old) (mode_of self.old) result.done }
    {
        if self.gref.0 >= words.grants(self.dom) {
            return self.ends(None, Err(GrantRefusal::NoEntry(self.gref.0)));
        }
        let flags = Place::Grant(self.dom, self.gref, Half::Flags);
        let word = words.load(flags);
        let access = Access::Load(flags, word);
        match refusal_of(word, self.mode) {
            Some(refusal) => self.ends(Some(access), Err(refusal)),
            None => self.goes_on(access, MapStage::Begin(word as u16)),
        }
    }

    /// Makes the next access of the map: it loads the flags, exchanges them for the same with the in-use bits of the
    /// mode, and loads the frame. Done is the page, which is held from then on, or why it was refused:
    /// NoEntry where the domain has no such entry, and then there is no access; by the flags' word that was loaded
    /// NotPermitted, OtherDomain, ReadOnly or InUse, the first that applies in this order; Moved where the exchange saw
    /// another word; BadFrame where the domain has no such frame. A refusal leaves the flags as they were: before
    /// BadFrame the bits that were set are cleared again. A map that is done answers the same again, without an access.
    pub fn step<W: Words>(&mut self, words: &mut W) -> Turn<Result<Hold, GrantRefusal>>
        requires { MayGo (W.may words.old) (map_left_by (W.frames_of words.old) (W.grants_of words.old) self.old) }
        ensures advances { AdvancesBy (W.frames_of words.old) (W.grants_of words.old) self.old result.access result.done self.new }
        ensures made { Makes W.makes words.old result.access words.new }
        ensures dom { dom_of self.new ≡ dom_of self.old }
        ensures entry { (gref_of self.new ≡ gref_of self.old) × (mode_of self.new ≡ mode_of self.old) }
        ensures over { is_over self.new ≡ is_some result.done }
        ensures stays { IsAtEntry (dom_of self.old) (gref_of self.old) result.access }
        ensures held { is_over self.old ≡ false → HoldsByAccess result.access result.done }
        ensures won { is_over self.old ≡ false → Wins (dom_of self.old) (gref_of self.old) (mode_of self.old) result.done }
    {
        let flags = Place::Grant(self.dom, self.gref, Half::Flags);
        match self.stage {
            MapStage::Start => self.start(words),
            MapStage::Begin(word) => {
                let old = word as u32;
                let new = old + bits_of(self.mode);
                let seen = words.swap_if(flags, old, new);
                let access = Access::Cas(flags, old, new, seen);
                if seen == old {
                    self.goes_on(access, MapStage::Name)
                } else {
                    self.ends(Some(access), Err(GrantRefusal::Moved(old, seen)))
                }
            }
            MapStage::Name => {
                let at = Place::Grant(self.dom, self.gref, Half::FrameNo);
                let frame = words.load(at);
                let access = Access::Load(at, frame);
                if frame < words.frames(self.dom) {
                    let hold = self.hold(frame);
                    self.ends(Some(access), Ok(hold))
                } else {
                    self.goes_on(access, MapStage::Undo(frame))
                }
            }
            MapStage::Undo(frame) => {
                let mask = bits_of(self.mode);
                let seen = words.clear(flags, mask);
                self.ends(
                    Some(Access::Clear(flags, mask, seen)),
                    Err(GrantRefusal::BadFrame(frame)),
                )
            }
            MapStage::Over(end) => self.ends(None, end),
        }
    }
}

/// Ends a hold: the in-use bits that its mapping set are cleared. Answers the access.
pub fn unmap<W: Words>(hold: &Hold, words: &mut W) -> Access
    requires { W.may words.old (unmap_want hold.now) }
    ensures clears { wanted result ≡ unmap_want hold.now }
    ensures made { W.makes words.old result words.new }
{
    let at = Place::Grant(hold.dom, hold.gref, Half::Flags);
    let mask = bits_of(hold.mode);
    let seen = words.clear(at, mask);
    Access::Clear(at, mask, seen)
}
