//! A device gives up the pages of a list.

ghost use Rattle.std.specs.Prelude.{◌≡◌, ◌<◌, ◌≤◌, List, length, slice_get, Some};
ghost use Rattle.pv_words.specs.declared.grant.Hold.{Hold};
ghost use Rattle.pv_words.specs.Release.{Drops, MayDrop};

use pv_words::{Access, Hold, PageList, Words, unmap};

/// A Release: how many pages of a list were given up, the first ones of it. It doesn't own the list, which is the same in
/// each call: a table of buffers that knows nothing of their pages keeps the list, and its owner the Release. Each step makes
/// the next access.
#[derive(Clone, Copy)]
pub struct Release {
    gone: u32,
}

#[tactic(auto, unfolding(crate::specs::Release::left_of))]
impl Release {
    ghost use Rattle.page_directory.specs.Release.{left_of};

    /// The Release of a list of which each page is held yet.
    pub fn new() -> Release
        ensures { (pages : List Hold) → left_of result pages ≡ pages }
    {
        Release { gone: 0 }
    }

    /// How many pages of the list are left, at most as many as it has.
    pub fn left<P: PageList>(&self, pages: &P) -> u32
        ensures count { result ≡ length (left_of self.now (P.holds pages.now)) }
        ensures few { result ≤ length (P.holds pages.now) }
    {
        pages.len().saturating_sub(self.gone)
    }

    /// The page of this number of those that are left of the list, from 0.
    pub fn get<P: PageList>(&self, pages: &P, i: u32) -> Hold
        requires { i < length (left_of self.now (P.holds pages.now)) }
        ensures { slice_get (left_of self.now (P.holds pages.now)) i ≡ Some result }
    {
        prove!(self.gone <= pages.len());
        pages.get(self.gone + i)
    }

    /// Unmaps the first page that is left of the list, which is given up then.
    pub fn step<P: PageList, W: Words>(&mut self, pages: &P, words: &mut W) -> Access
        requires some { 0 < length (left_of self.old (P.holds pages.now)) }
        requires may { MayDrop (W.may words.old) (left_of self.old (P.holds pages.now)) }
        ensures drops { Drops (left_of self.old (P.holds pages.now)) result (left_of self.new (P.holds pages.now)) }
        ensures made { W.makes words.old result words.new }
    {
        let hold = self.get(pages, 0);
        prove!(self.gone < pages.len());
        self.gone += 1;
        unmap(&hold, words)
    }
}
