//! Ranges of the octets of a buffer.

ghost use Rattle.std.specs.Prelude.{◌≡◌, ◌+◌, ◌*◌, ◌≤◌, length};
ghost use Rattle.octet_window.specs.Pieces.{pieces_in};

use crate::piece::Piece;
use pv_words::{PageList, Place};
use std::marker::Model;

/// How many words a page has.
const PAGE_WORDS: u32 = 1024;

/// The octets of the pages of a buffer, seen as the list of the pages. Octet `o` is octet `o mod 4` of word `o / 4 mod 1024` of
/// page `o / 4096`.
#[derive(Drop)]
pub struct Window<'a, P: PageList> {
    pages: &'a P,
}

impl<'a, P: PageList> Model for Window<'a, P> {
    ghost use Rattle.std.specs.Prelude.{List};
    ghost use Rattle.pv_words.specs.declared.grant.Hold.{Hold};

    ghost Value = { List Hold };

    ghost view = { λ w. P.holds w.pages.now };
}

impl<'a, P: PageList> Window<'a, P> {
    /// The octets of these pages.
    pub fn over(pages: &'a P) -> Window<'a, P>
        ensures { result ≡ P.holds pages.now }
    {
        Window { pages }
    }

    /// The pieces of the `count` octets from octet `offset` on. It copies nothing, and takes the same time for each range.
    pub fn pieces(&self, offset: u32, count: u32) -> Pieces<'a, P>
        requires { offset + count ≤ 4096 * length self.now }
        ensures { result ≡ pieces_in self.now offset count }
    {
        Pieces {
            pages: self.pages,
            octet: u64::from(offset),
            more: count,
        }
    }
}

/// The pieces of a range, in order, seen as the list of those that are still to come. Each takes the same time.
#[derive(Drop)]
pub struct Pieces<'a, P: PageList> {
    pages: &'a P,
    // The next octet, among those of the buffer, and how many are to come.
    octet: u64,
    more: u32,
}

impl<'a, P: PageList> Model for Pieces<'a, P> {
    ghost use Rattle.std.specs.Prelude.{◌+◌, ◌*◌, ◌^◌, ◌<◌, ◌≤◌, List, length};
    ghost use Rattle.octet_window.specs.declared.piece.Piece.{Piece};
    ghost use Rattle.octet_window.specs.Pieces.{pieces_in};

    ghost Value = { List Piece };

    ghost view = { λ s. pieces_in (P.holds s.pages.now) s.octet s.more };

    ghost invariant = { λ s. (s.octet + s.more ≤ 4096 * length (P.holds s.pages.now)) × (s.octet + s.more < 2 ^ 33) };
}

impl<'a, P: PageList> Iterator for Pieces<'a, P> {
    type Item = Piece;

    ghost use Rattle.std.specs.Iterator.{YieldsFirst, item_count};

    ghost next_gives = { YieldsFirst (λ rest. rest) };

    ghost remaining = { item_count (λ rest. rest) };

    fn next(&mut self) -> Option<Piece> {
        if self.more == 0 {
            return None;
        }
        let first = (self.octet % 4) as u32;
        let len = self.more.min(4 - first);
        let index = (self.octet / 4) as u32;
        let page = self.pages.get(index / PAGE_WORDS);
        self.octet += u64::from(len);
        self.more -= len;
        Some(Piece {
            place: Place::Cell(page.dom, page.frame, (index % PAGE_WORDS) as u16),
            index,
            first: first as u8,
            len: len as u8,
        })
    }
}
