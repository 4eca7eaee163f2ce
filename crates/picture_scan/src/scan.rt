//! A picture is read, one load a step.

ghost use Rattle.std.specs.Prelude.{◌≡◌, ◌+◌, ◌*◌, ◌/◌, ◌<◌, ◌≤◌};
ghost use Rattle.picture_scan.specs.Rectangle.{IsWithin, rows_octets};

use crate::pixels::Pixels;
use crate::shape::Shape;
use pv_words::{Access, PageList, Place, Turn, Words};

/// How many words a page has.
const PAGE_WORDS: u32 = 1024;

/// What a scan comes to.
#[derive(Clone, Copy, Debug, PartialEq, Eq)]
pub struct Shown {
    /// How many pixels the rectangle has.
    pub pixels: u32,
    /// The mark of the list of its pixels, row by row.
    pub mark: u32,
}

/// A scan of a rectangle of a buffer: how far it has come. Each step loads the next word.
#[derive(Drop)]
pub struct Scan {
    // The key by which the buffer's name is known.
    key: u64,
    shape: Shape,
    // The row that is read, among those of the buffer, and how many rows follow it.
    row: u32,
    rows: u32,
    // The next octet of the row, among those of the buffer, and how many octets of the row are to come.
    place: u32,
    more: u32,
    pixels: Pixels,
    over: bool,
    ghost within: { IsWithin 33554432 shape },
    ghost bottom: { row + 1 + rows ≡ shape.y + shape.rows },
    ghost some: { 0 < more },
    ghost inside: { place + more ≤ rows_octets shape },
}

#[tactic(auto, unfolding(crate::specs::Scan::is_over, crate::specs::Scan::key_of, crate::specs::Scan::shape_of))]
impl Scan {
    ghost use Rattle.std.specs.Prelude.{ℕ, Some, false, is_some, length, IfSome, List};
    ghost use Rattle.pv_words.specs.declared.grant.Hold.{Hold};
    ghost use Rattle.pv_words.specs.Plan.{MayGo, Makes, Turns};
    ghost use Rattle.picture_scan.specs.Scan.{LiesIn, is_over, key_of, left_of, shape_of};
    ghost use Rattle.picture_scan.specs.Scanning.{scan_plan};
    ghost use Rattle.picture_scan.specs.Steps.{EndsRow, GoesOn, IsInPages, TurnsBy};

    /// A scan of this rectangle of the buffer whose name is known by this key, before its first load.
    pub fn new(shape: Shape, key: u64) -> Scan
        requires { IsWithin 33554432 shape }
        ensures begins { (pages : List Hold) → left_of pages result ≡ scan_plan shape pages key }
        ensures shape { shape_of result ≡ shape }
        ensures key { key_of result ≡ key }
        ensures going { is_over result ≡ false }
    {
        Scan {
            key,
            shape,
            row: shape.y,
            rows: shape.rows - 1,
            place: shape.row_first(shape.y),
            more: shape.row_octets(),
            pixels: Pixels::new(shape.bpp / 8, 0),
            over: false,
        }
    }

    /// The key by which the buffer's name is known.
    pub fn key(&self) -> u64
        ensures { result ≡ key_of self.now }
    {
        self.key
    }

    /// The rectangle that is read.
    pub fn shape(&self) -> Shape
        ensures { result ≡ shape_of self.now }
    {
        self.shape
    }

    /// Whether the rectangle is read.
    pub fn is_over(&self) -> bool
        ensures { result ≡ is_over self.now }
    {
        self.over
    }

    // The row is read: the next one is begun, or the picture is there.
    fn end_row(&mut self) -> Option<Shown>
        requires { is_over self.old ≡ false }
        ensures ends { (pages : List Hold) → EndsRow pages self.old result self.new }
        ensures goes_on { GoesOn self.old result self.new }
    {
        let mark = self.pixels.mark();
        if self.rows == 0 {
            self.over = true;
            return Some(Shown {
                pixels: self.shape.count(),
                mark,
            });
        }
        self.pixels = Pixels::new(self.shape.bpp / 8, mark);
        self.row += 1;
        self.rows -= 1;
        self.place = self.shape.row_first(self.row);
        self.more = self.shape.row_octets();
        None
    }

    // The next word of the row is this.
    fn absorb(&mut self, word: u32) -> Option<Shown>
        requires { is_over self.old ≡ false }
        ensures turns { (pages : List Hold) → TurnsBy pages (self.old.place / 4) word self.old result self.new }
        ensures goes_on { GoesOn self.old result self.new }
    {
        let skip = self.place % 4;
        let count = self.more.min(4 - skip);
        self.pixels = self.pixels.absorb(word, skip, count);
        if count < self.more {
            self.place += count;
            self.more -= count;
            return None;
        }
        self.end_row()
    }

    /// Loads the next word. For each row of the rectangle in order these are the words that have an octet of the row's pixels, in
    /// order, each once in this row. Done, with the last of them, are the pixels that these loads found. The pages are those of
    /// the buffer, the same at each step.
    pub fn step<P: PageList, W: Words>(&mut self, pages: &P, words: &mut W) -> Turn<Shown>
        requires going { is_over self.old ≡ false }
        requires lies { LiesIn (P.holds pages.now) (shape_of self.old) }
        requires may { MayGo (W.may words.old) (left_of (P.holds pages.now) self.old) }
        ensures turns { Turns (left_of (P.holds pages.now) self.old) result.access result.done (left_of (P.holds pages.now) self.new) }
        ensures made { Makes W.makes words.old result.access words.new }
        ensures goes_on { GoesOn self.old result.done self.new }
        ensures stays { IfSome result.access (IsInPages (P.holds pages.now)) }
    {
        let index = self.place / 4;
        let page = pages.get(index / PAGE_WORDS);
        let at = Place::Cell(page.dom, page.frame, (index % PAGE_WORDS) as u16);
        let word = words.load(at);
        Turn {
            access: Some(Access::Load(at, word)),
            done: self.absorb(word),
        }
    }
}
