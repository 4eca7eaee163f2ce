//! What a domain does with a grant entry of its own.

ghost use Rattle.std.specs.Prelude.{◌≡◌};
ghost use Rattle.pv_words.specs.Memory.{place_of};
ghost use Rattle.pv_world.specs.Owner.{news_of, told_of};

use grant_table::{Owned, OwnerStep};
use pv_words::{Access, GrantRef, Place, Told, Turn, Words};

// A permit or an end, and how far it has come.
#[derive(Drop)]
pub enum Owning {
    Permits(OwnerStep),
    Ends(OwnerStep),
}

impl Owning {
    ghost use Rattle.pv_words.specs.Plan.{IsUnfinished, Makes, MayGo, Turns};
    ghost use Rattle.pv_world.specs.Owner.{left_of};

    // Makes the next access.
    pub fn step<W: Words>(&mut self, words: &mut W) -> Turn<Owned>
        requires live { IsUnfinished (left_of self.old) }
        requires may { MayGo (W.may words.old) (left_of self.old) }
        ensures turns { Turns (left_of self.old) result.access result.done (left_of self.new) }
        ensures made { Makes W.makes words.old result.access words.new }
    {
        match self {
            Owning::Permits(step) => step.permit_step(words),
            Owning::Ends(step) => step.end_step(words),
        }
    }
}

// What an access aims at.
pub fn place(access: Access) -> Place
    ensures { result ≡ place_of access }
{
    match access {
        Access::Load(at, _)
        | Access::Store(at, _)
        | Access::Cas(at, _, _, _)
        | Access::Clear(at, _, _) => at,
    }
}

// What a domain is told of a permit or an end.
fn told(gref: GrantRef, owned: Owned) -> Option<Told>
    ensures { result ≡ told_of gref owned }
{
    match owned {
        Owned::Opened => None,
        Owned::AlreadyOpen(word) => Some(Told::OpenRefused(gref, word)),
        Owned::Ended => Some(Told::Ended(gref)),
        Owned::Busy(word) => Some(Told::Busy(gref, word)),
        Owned::Moved(word, seen) => Some(Told::Moved(gref, word, seen)),
    }
}

// The same of one that may be under way still.
pub fn news(gref: GrantRef, done: Option<Owned>) -> Option<Told>
    ensures { result ≡ news_of gref done }
{
    match done {
        None => None,
        Some(owned) => told(gref, owned),
    }
}
