//! A domain grants frames by entries of its own, and ends its grants.

ghost use Rattle.std.specs.Prelude.{◌≡◌, Some, None};
ghost use Rattle.grant_table.specs.Owning.{granting, opened_at, ended_at};

use pv_words::{Access, DomId, Frame, GrantRef, Half, Mode, Place, Turn, Words};

/// The flags of a grant for reading and writing, and of one for reading alone.
const PERMIT: u32 = 1;

const PERMIT_READ_ONLY: u32 = 5;

/// The in-use bits of the flags.
const IN_USE: u32 = 24;

/// What became of an entry.
#[derive(Clone, Copy, Debug, PartialEq, Eq)]
pub enum Owned {
    /// It grants the frame now.
    Opened,
    /// It wasn't free: the flags' word that was found, which is as it was. Where the exchange found it, and not the load
    /// before, the entry has the new frame.
    AlreadyOpen(u32),
    /// It is free now.
    Ended,
    /// It is in use: the flags' word that the exchange saw, which is as it was.
    Busy(u32),
    /// The flags' word that was loaded, and the other one that the exchange saw, in which no in-use bit is set. It is
    /// as it was.
    Moved(u32, u32),
}

// What comes next.
#[derive(Clone, Copy)]
enum OwnerStage {
    // A permit loads the flags,
    Start(Frame, Mode),
    // stores the frame,
    Name(Frame, Mode),
    // and makes the entry valid.
    Open(Mode),
    // An end loads the flags,
    Check,
    // and frees the entry, of which it loaded this word.
    Close(u32),
    Over,
}

/// A permit or an end by a domain on an entry of its own: how far it has come. Each step makes the next access.
#[derive(Drop)]
pub struct OwnerStep {
    dom: DomId,
    gref: GrantRef,
    stage: OwnerStage,
}

// The flags' word of a grant.
fn granting(mode: Mode) -> u32
    ensures { result ≡ granting mode }
{
    match mode {
        Mode::Read => PERMIT_READ_ONLY,
        Mode::Write => PERMIT,
    }
}

// What a permit answers, whose exchange saw this word.
fn opened_at(seen: u32) -> Owned
    ensures { result ≡ opened_at seen }
{
    if seen == 0 {
        Owned::Opened
    } else {
        Owned::AlreadyOpen(seen)
    }
}

// What an end answers, which loaded this word, and whose exchange saw the other.
fn ended_at(word: u32, seen: u32) -> Owned
    ensures { result ≡ ended_at word seen }
{
    if seen & IN_USE != 0 {
        return Owned::Busy(seen);
    }
    if seen == word & (IN_USE ^ 0xFFFF_FFFF) {
        Owned::Ended
    } else {
        Owned::Moved(word, seen)
    }
}

impl OwnerStep {
    ghost use Rattle.pv_words.specs.Plan.{IsUnfinished, MayGo, Turns, Makes};
    ghost use Rattle.grant_table.specs.declared.owner.OwnerStage.TheVariants as stage;
    ghost use Rattle.grant_table.specs.Owning.{permit_plan, end_plan};
    ghost use Rattle.grant_table.specs.OwnerLeft.{permit_left, end_left};

    /// A permit, before its first access: the entry is to grant domain 0 this frame of the domain, for reading or for
    /// reading and writing.
    pub fn permit(dom: DomId, gref: GrantRef, frame: Frame, mode: Mode) -> OwnerStep
        ensures { permit_left result ≡ permit_plan dom.0 gref.0 frame.0 mode }
    {
        OwnerStep {
            dom,
            gref,
            stage: OwnerStage::Start(frame, mode),
        }
    }

    /// An end, before its first access: the entry is to be free.
    pub fn end(dom: DomId, gref: GrantRef) -> OwnerStep
        ensures { end_left result ≡ end_plan dom.0 gref.0 }
    {
        OwnerStep {
            dom,
            gref,
            stage: OwnerStage::Check,
        }
    }

    // The permit or end goes on.
    fn goes_on(&mut self, access: Access, next: OwnerStage) -> Turn<Owned>
        ensures access { result.access ≡ Some access }
        ensures done { result.done ≡ None }
        ensures left { self.new ≡ record { dom = self.old.dom; gref = self.old.gref; stage = next } }
    {
        self.stage = next;
        Turn {
            access: Some(access),
            done: None,
        }
    }

    // The permit or end is done.
    fn ends(&mut self, access: Access, owned: Owned) -> Turn<Owned>
        ensures access { result.access ≡ Some access }
        ensures done { result.done ≡ Some owned }
        ensures left { self.new ≡ record { dom = self.old.dom; gref = self.old.gref; stage = stage.Over } }
    {
        self.stage = OwnerStage::Over;
        Turn {
            access: Some(access),
            done: Some(owned),
        }
    }

    /// Makes the next access of a permit that isn't done. Done is Opened, or AlreadyOpen exactly where the load or
    /// the exchange found a word other than 0.
    pub fn permit_step<W: Words>(&mut self, words: &mut W) -> Turn<Owned>
        requires live { IsUnfinished (permit_left self.old) }
        requires may { MayGo (W.may words.old) (permit_left self.old) }
        ensures turns { Turns (permit_left self.old) result.access result.done (permit_left self.new) }
        ensures made { Makes W.makes words.old result.access words.new }
    {
        let flags = Place::Grant(self.dom, self.gref, Half::Flags);
        match self.stage {
            OwnerStage::Start(frame, mode) => {
                let word = words.load(flags);
                let access = Access::Load(flags, word);
                if word == 0 {
                    self.goes_on(access, OwnerStage::Name(frame, mode))
                } else {
                    self.ends(access, Owned::AlreadyOpen(word))
                }
            }
            OwnerStage::Name(frame, mode) => {
                let at = Place::Grant(self.dom, self.gref, Half::FrameNo);
                words.store(at, frame.0);
                self.goes_on(Access::Store(at, frame.0), OwnerStage::Open(mode))
            }
            OwnerStage::Open(mode) => {
                let new = granting(mode);
                let seen = words.swap_if(flags, 0, new);
                self.ends(Access::Cas(flags, 0, new, seen), opened_at(seen))
            }
            _ => unreachable!(),
        }
    }

    /// Makes the next access of an end that isn't done. Done is Busy exactly where the exchange saw an in-use bit,
    /// else Ended where it saw the loaded word without its in-use bits, which is 0 then, and Moved where it saw another.
    pub fn end_step<W: Words>(&mut self, words: &mut W) -> Turn<Owned>
        requires live { IsUnfinished (end_left self.old) }
        requires may { MayGo (W.may words.old) (end_left self.old) }
        ensures turns { Turns (end_left self.old) result.access result.done (end_left self.new) }
        ensures made { Makes W.makes words.old result.access words.new }
    {
        let flags = Place::Grant(self.dom, self.gref, Half::Flags);
        match self.stage {
            OwnerStage::Check => {
                let word = words.load(flags);
                self.goes_on(Access::Load(flags, word), OwnerStage::Close(word))
            }
            OwnerStage::Close(word) => {
                let old = word & (IN_USE ^ 0xFFFF_FFFF);
                let seen = words.swap_if(flags, old, 0);
                self.ends(Access::Cas(flags, old, 0, seen), ended_at(word, seen))
            }
            _ => unreachable!(),
        }
    }
}
