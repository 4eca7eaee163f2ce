// The live buffers of a display, with what is left of the pages of each.

ghost use Rattle.std.specs.Prelude.{◌≡◌, ◌<◌, ◌≤◌, ◌*◌, [], length, slice_get, is_some, Some, Ok, IfOk};
ghost use Rattle.pv_words.specs.Release.{Drops, MayDrop};
ghost use Rattle.page_directory.specs.Release.{left_of};
ghost use Rattle.display_buffers.specs.Buffers.{AreDistinct, buffer_of, check_of, cookies, has_cookie, with_buffer, without_buffer};
ghost use Rattle.display_buffers.specs.Pixels.{page_count};
ghost use Rattle.display_buffers.specs.Stock.{buffer_pages, without_first_in};
ghost use Rattle.display_buffers.specs.Buffers.{buffer_at};
ghost use Rattle.display_buffers.specs.Left.{Finds, IsPage, less_at, pages_at};

use crate::buffers::Buffers;
use displ_wire::{Buffer, Create, Refused};
use page_directory::{Pages, Release};
use pv_words::{Access, Hold, PageList, Words};
use std::alloc::{AllocError, Global};
use std::marker::Model;

// How many buffers there may be at one time.
const BUFFER_LIMIT: usize = 64;

// How many pages a buffer may have.
pub(crate) const PAGE_LIMIT: u32 = 8192;

/// The pages that are left of a buffer, in order, while some are given up.
#[derive(Clone, Copy)]
pub struct LeftPages<'a> {
    pages: &'a Pages,
    release: Release,
}

impl<'a> PageList for LeftPages<'a> {
    ghost use Rattle.display_buffers.specs.Lent.{left_pages};

    ghost holds = { left_pages };

    fn len(&self) -> u32 {
        self.release.left(self.pages)
    }

    fn get(&self, i: u32) -> Hold {
        self.release.get(self.pages, i)
    }
}

// The live buffers of a display, in order of creation. A contract sees each with the pages that are left of it.
#[derive(Drop)]
pub(crate) struct LeftBuffers {
    buffers: Buffers<Pages>,
    // How far the pages of each buffer are given up, in order of creation.
    releases: Vec<Release>,
}

impl Model for LeftBuffers {
    ghost use Rattle.std.specs.Prelude.{◌≡◌, ◌≤◌, List, length, vec_len, vec_capacity};
    ghost use Rattle.display_buffers.specs.Stock.{Held};
    ghost use Rattle.display_buffers.specs.Left.{left_in};

    ghost Value = { List Held };

    ghost view = { λ b. left_in b.buffers b.releases.items };

    ghost invariant = { λ b. (vec_len b.releases ≡ length b.buffers) × (64 ≤ vec_capacity b.releases) };
}

impl LeftBuffers {
    ghost use Rattle.display_buffers.specs.Lent.{left_pages};

    // No buffer, and the room for 64.
    pub(crate) fn new(alloc: Global) -> Result<LeftBuffers, AllocError>
        ensures { IfOk result (λ b. b ≡ []) }
    {
        let buffers = Buffers::new(alloc)?;
        let releases = Vec::with_capacity(alloc, BUFFER_LIMIT)?;
        Ok(LeftBuffers { buffers, releases })
    }

    // The first check of a CREATE that fails, of those that need no memory and no page.
    pub(crate) fn check(&self, c: &Create) -> Result<(), Refused>
        ensures { result ≡ check_of self.now c.now }
    {
        self.buffers.check(c)
    }

    // Whether a buffer of this cookie is live.
    pub(crate) fn is_live(&self, cookie: u64) -> bool
        ensures { result ≡ is_some (buffer_of cookie self.now) }
    {
        self.buffers.get(cookie).is_some()
    }

    // The live buffer of this cookie, if there is one.
    pub(crate) fn buffer(&self, cookie: u64) -> Option<Buffer>
        ensures { result ≡ buffer_at cookie self.now }
    {
        self.buffers.get(cookie)
    }

    // Makes the buffer that a CREATE asks for, of what is left of these pages.
    pub(crate) fn create(&mut self, c: &Create, pages: Pages, release: Release)
        requires checked { check_of self.old c.now ≡ Ok tt }
        requires count { length pages ≡ page_count c.now.buffer_sz }
        ensures { self.new ≡ with_buffer self.old c.now (left_of release pages) }
    {
        self.buffers.create(c, pages);
        self.releases.push_reserved(release);
    }

    // Takes away the buffer of a cookie.
    pub(crate) fn destroy(&mut self, cookie: u64)
        ensures { self.new ≡ without_buffer cookie self.old }
    {
        let Some(at) = self.place_of(cookie) else {
            return;
        };
        let _ = self.buffers.destroy(cookie);
        let _ = self.releases.remove(at as usize);
    }

    // Takes away all buffers.
    pub(crate) fn clear(&mut self)
        ensures { self.new ≡ [] }
    {
        self.buffers.clear();
        self.releases.clear();
    }

    // How many buffers there are, under different cookies.
    fn count(&self) -> u32
        ensures count { result ≡ length self.now }
        ensures few { result ≤ 64 }
        ensures distinct { AreDistinct (cookies self.now) }
    {
        self.buffers.live()
    }

    // How many pages are left of the buffer at this place.
    pub(crate) fn held_at(&self, k: u32) -> u32
        requires { k < length self.now }
        ensures count { result ≡ length (pages_at self.now k) }
        ensures few { result ≤ 8192 }
    {
        let pages = self.buffers.pages_at(k);
        prove!(pages.len() <= PAGE_LIMIT);
        self.releases[k as usize].left(pages)
    }

    // The page of this number of those that are left of the buffer at this place.
    fn hold_at(&self, k: u32, i: u32) -> Hold
        requires { i < length (pages_at self.now k) }
        ensures { slice_get (pages_at self.now k) i ≡ Some result }
    {
        self.releases[k as usize].get(self.buffers.pages_at(k), i)
    }

    // Where the buffer of a cookie stands. No other has this cookie.
    pub(crate) fn place_of(&self, cookie: u64) -> Option<u32>
        ensures place { Finds (has_cookie cookie) self.now result }
        ensures distinct { AreDistinct (cookies self.now) }
    {
        for k in 0..self.count() {
            if self.buffers.cookie_at(k) == cookie {
                return Some(k);
            }
        }
        None
    }

    // How many pages are left of all buffers.
    pub(crate) fn held(&self) -> u32
        ensures count { result ≡ length (buffer_pages self.now) }
        ensures few { result ≤ 64 * 8192 }
    {
        let mut held = 0;
        for k in 0..self.count() {
            held += self.held_at(k);
        }
        held
    }

    // Where the page of this number stands, of those that are left of all buffers: the place of its buffer, and its number
    // among the pages of that.
    fn find(&self, i: u32) -> (u32, u32)
        requires { i < length (buffer_pages self.now) }
        ensures { IsPage self.now i result.0 result.1 }
    {
        let mut rest = i;
        for k in 0..self.count() {
            let held = self.held_at(k);
            if rest < held {
                return (k, rest);
            }
            rest -= held;
        }
        unreachable!()
    }

    // The page of this number of those that are left of all buffers.
    pub(crate) fn hold(&self, i: u32) -> Hold
        requires { i < length (buffer_pages self.now) }
        ensures { slice_get (buffer_pages self.now) i ≡ Some result }
    {
        let (k, j) = self.find(i);
        self.hold_at(k, j)
    }

    // Unmaps the first page that is left of the buffer at this place.
    pub(crate) fn unmap_at<W: Words>(&mut self, k: u32, words: &mut W) -> Access
        requires some { 0 < length (pages_at self.old k) }
        requires may { MayDrop (W.may words.old) (pages_at self.old k) }
        ensures drops { Drops (pages_at self.old k) result (pages_at self.new k) }
        ensures less { self.new ≡ less_at self.old k }
        ensures made { W.makes words.old result words.new }
    {
        let mut release = self.releases[k as usize];
        let access = release.step(self.buffers.pages_at(k), words);
        self.releases[k as usize] = release;
        access
    }

    // The pages that are left of the buffer at this place.
    pub(crate) fn pages_at(&self, k: u32) -> LeftPages<'_>
        requires { k < length self.now }
        ensures { left_pages result ≡ pages_at self.now k }
    {
        LeftPages {
            pages: self.buffers.pages_at(k),
            release: self.releases[k as usize],
        }
    }

    // Unmaps the first page that is left of all buffers.
    pub(crate) fn unmap_first<W: Words>(&mut self, words: &mut W) -> Access
        requires some { 0 < length (buffer_pages self.old) }
        requires may { MayDrop (W.may words.old) (buffer_pages self.old) }
        ensures drops { Drops (buffer_pages self.old) result (buffer_pages self.new) }
        ensures less { self.new ≡ without_first_in self.old }
        ensures made { W.makes words.old result words.new }
    {
        let (k, _) = self.find(0);
        self.unmap_at(k, words)
    }
}
