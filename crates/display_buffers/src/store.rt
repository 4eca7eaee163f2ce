//! The live buffers of a display, and the pages that are held for buffers.

ghost use Rattle.std.specs.Prelude.{◌≡◌, ◌<◌, ◌≤◌, ◌==◌, [], length, slice_get, Some, Ok, IfOk, is_some};
ghost use Rattle.display_buffers.specs.Buffers.{buffer_of, check_of};
ghost use Rattle.display_buffers.specs.Pixels.{page_count};
ghost use Rattle.display_buffers.specs.Buffers.{buffer_at};

use crate::left::{LeftBuffers, LeftPages, PAGE_LIMIT};
use displ_wire::{Buffer, Create, Refused};
use page_directory::{Pages, Release};
use pv_words::{Access, Hold, Words};
use std::alloc::{AllocError, Global};

/// The live buffers of a display, in order of creation, and the pages that are held for buffers. The room for all buffers
/// is taken when it is made.
#[derive(Drop)]
pub struct Store {
    buffers: LeftBuffers,
    // The pages that were mapped for a CREATE that isn't answered, and how far they are given up.
    mapped: Pages,
    release: Release,
}

#[tactic(auto, unfolding(crate::specs::Store::stock_of, crate::specs::Store::count_of))]
impl Store {
    ghost use Rattle.pv_words.specs.Release.{Drops, MayDrop};
    ghost use Rattle.display_buffers.specs.Stock.{Stock, no_stock, pages_of, pages_under, without_one, without_first, created, destroyed};
    ghost use Rattle.display_buffers.specs.Store.{stock_of, count_of};
    ghost use Rattle.display_buffers.specs.Lent.{left_pages};
    ghost use Rattle.display_buffers.specs.Buffers.{has_cookie};
    ghost use Rattle.display_buffers.specs.Left.{Finds, pages_at};

    /// No buffer and no page.
    pub fn new(alloc: Global) -> Result<Store, AllocError>
        ensures empty { IfOk result (λ s. stock_of s ≡ no_stock) }
    {
        Ok(Store {
            buffers: LeftBuffers::new(alloc)?,
            mapped: Pages::none(alloc),
            release: Release::new(),
        })
    }

    /// The first check of a CREATE that fails, of those that need no memory and no page.
    pub fn check(&self, c: &Create) -> Result<(), Refused>
        ensures { result ≡ check_of (stock_of self.now).buffers c.now }
    {
        self.buffers.check(c)
    }

    /// Whether a buffer of this cookie is live.
    pub fn is_live(&self, cookie: u64) -> bool
        ensures { result ≡ is_some (buffer_of cookie (stock_of self.now).buffers) }
    {
        self.buffers.is_live(cookie)
    }

    /// The live buffer of this cookie, if there is one.
    pub fn buffer(&self, cookie: u64) -> Option<Buffer>
        ensures { result ≡ buffer_at cookie (stock_of self.now).buffers }
    {
        self.buffers.buffer(cookie)
    }

    /// Keeps the pages that were mapped for a CREATE.
    pub fn keep(&mut self, pages: Pages)
        ensures stock { stock_of self.new ≡ record { mapped = pages; buffers = (stock_of self.old).buffers } }
        ensures count { count_of self.new ≡ length pages }
    {
        self.mapped = pages;
        self.release = Release::new();
    }

    /// Makes the buffer that a CREATE asks for, of the pages that were mapped for it.
    pub fn create(&mut self, c: &Create)
        requires checked { check_of (stock_of self.old).buffers c.now ≡ Ok tt }
        requires count { count_of self.old ≡ page_count c.now.buffer_sz }
        ensures stock { stock_of self.new ≡ created (stock_of self.old) c.now }
    {
        let pages = self.mapped.take();
        self.buffers.create(c, pages, self.release);
        self.release = Release::new();
    }

    /// Takes away the buffer of a cookie, whose pages are given up.
    pub fn destroy(&mut self, cookie: u64)
        requires bare { pages_under cookie (stock_of self.old).buffers ≡ [] }
        ensures stock { stock_of self.new ≡ destroyed (stock_of self.old) cookie }
    {
        self.buffers.destroy(cookie);
    }

    /// Takes away all buffers, once all pages are given up.
    pub fn clear(&mut self)
        requires { pages_of (stock_of self.old) ≡ [] }
        ensures stock { stock_of self.new ≡ no_stock }
    {
        self.buffers.clear();
        let _ = self.mapped.take();
        self.release = Release::new();
    }

    // How many pages are left that were mapped for a CREATE.
    fn mapped_held(&self) -> u32
        ensures count { result ≡ length (stock_of self.now).mapped }
        ensures few { result ≤ 8192 }
    {
        prove!(self.mapped.len() <= PAGE_LIMIT);
        self.release.left(&self.mapped)
    }

    /// How many pages are held, at most 532480 (65 times 8192).
    pub fn held(&self) -> u32
        ensures count { result ≡ length (pages_of (stock_of self.now)) }
        ensures few { result ≤ 532480 }
    {
        self.mapped_held() + self.buffers.held()
    }

    /// Whether no page is held.
    pub fn is_bare(&self) -> bool
        ensures { result ≡ (length (pages_of (stock_of self.now)) == 0) }
    {
        self.held() == 0
    }

    /// The page of this number of those that are held, in the order in which they are given up.
    pub fn hold_at(&self, i: u32) -> Hold
        requires { i < length (pages_of (stock_of self.now)) }
        ensures { slice_get (pages_of (stock_of self.now)) i ≡ Some result }
    {
        let held = self.mapped_held();
        if i >= held {
            return self.buffers.hold(i - held);
        }
        self.release.get(&self.mapped, i)
    }

    /// How many pages are held of the buffer of this cookie.
    pub fn held_of(&self, cookie: u64) -> u32
        ensures { result ≡ length (pages_under cookie (stock_of self.now).buffers) }
    {
        match self.buffers.place_of(cookie) {
            Some(k) => self.buffers.held_at(k),
            None => 0,
        }
    }

    /// Where the buffer of a cookie stands among the live ones, from 0.
    pub fn place_of(&self, cookie: u64) -> Option<u32>
        ensures { Finds (has_cookie cookie) (stock_of self.now).buffers result }
    {
        self.buffers.place_of(cookie)
    }

    /// How many pages are held of the buffer at this place.
    pub fn held_at(&self, k: u32) -> u32
        requires { k < length (stock_of self.now).buffers }
        ensures count { result ≡ length (pages_at (stock_of self.now).buffers k) }
        ensures few { result ≤ 8192 }
    {
        self.buffers.held_at(k)
    }

    /// The pages that are held of the buffer at this place, in order.
    pub fn pages_at(&self, k: u32) -> LeftPages<'_>
        requires { k < length (stock_of self.now).buffers }
        ensures { left_pages result ≡ pages_at (stock_of self.now).buffers k }
    {
        self.buffers.pages_at(k)
    }

    /// Unmaps the first of all pages.
    pub fn unmap_first<W: Words>(&mut self, words: &mut W) -> Access
        requires some { 0 < length (pages_of (stock_of self.old)) }
        requires may { MayDrop (W.may words.old) (pages_of (stock_of self.old)) }
        ensures drops { Drops (pages_of (stock_of self.old)) result (pages_of (stock_of self.new)) }
        ensures stock { stock_of self.new ≡ without_first (stock_of self.old) }
        ensures count { count_of self.new ≡ count_of self.old }
        ensures made { W.makes words.old result words.new }
    {
        if self.mapped_held() > 0 {
            return self.release.step(&self.mapped, words);
        }
        self.buffers.unmap_first(words)
    }

    /// Unmaps the first page of the buffer of this cookie.
    pub fn unmap_of<W: Words>(&mut self, cookie: u64, words: &mut W) -> Access
        requires some { 0 < length (pages_under cookie (stock_of self.old).buffers) }
        requires may { MayDrop (W.may words.old) (pages_under cookie (stock_of self.old).buffers) }
        ensures drops { Drops (pages_under cookie (stock_of self.old).buffers) result (pages_under cookie (stock_of self.new).buffers) }
        ensures stock { stock_of self.new ≡ without_one (stock_of self.old) cookie }
        ensures count { count_of self.new ≡ count_of self.old }
        ensures made { W.makes words.old result words.new }
    {
        let Some(k) = self.buffers.place_of(cookie) else {
            unreachable!();
        };
        self.buffers.unmap_at(k, words)
    }
}
