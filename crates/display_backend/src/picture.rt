//! A picture that a connector shows, and its reading.

ghost use Rattle.std.specs.Prelude.{◌≡◌, IfSome};
ghost use Rattle.pv_words.specs.Plan.{MayGo, Makes};
ghost use Rattle.picture_scan.specs.Steps.{IsInPages};
ghost use Rattle.display_buffers.specs.Left.{pages_at};
ghost use Rattle.display_buffers.specs.Store.{stock_of};

use display_buffers::Store;
use picture_scan::{Scan, Shape, Shown};
use pv_words::{Turn, Words};

/// A rectangle of the display buffer of a cookie.
#[derive(Clone, Copy, Debug, PartialEq, Eq)]
pub struct Source {
    /// The cookie.
    pub dbuf: u64,
    /// The rectangle, among the buffer's pixels.
    pub shape: Shape,
}

/// The reading of a picture, for a Show of a connector.
#[derive(Drop)]
pub struct Reading {
    /// The connector.
    pub part: u8,
    /// Where the picture's buffer stands among the live ones.
    pub place: u32,
    /// How far the picture is read.
    pub scan: Scan,
}

impl Reading {
    ghost use Rattle.std.specs.Prelude.{None};
    ghost use Rattle.display_backend.specs.Course.{IsReading, scan_left};
    ghost use Rattle.display_backend.specs.Scans.{ScansOn};

    // The next load, in the pages that are held of its buffer.
    pub(crate) fn step<W: Words>(&mut self, store: &Store, words: &mut W) -> Turn<Shown>
        requires reads { IsReading self.old (stock_of store.now).buffers }
        requires may { MayGo (W.may words.old) (scan_left (stock_of store.now).buffers self.old) }
        ensures turns { ScansOn (stock_of store.now).buffers self.old result self.new }
        ensures made { Makes W.makes words.old result.access words.new }
        ensures stays { IfSome result.access (IsInPages (pages_at (stock_of store.now).buffers self.old.place)) }
        ensures part { self.new.part ≡ self.old.part }
        ensures still { result.done ≡ None → IsReading self.new (stock_of store.now).buffers }
    {
        let pages = store.pages_at(self.place);
        self.scan.step(&pages, words)
    }
}
