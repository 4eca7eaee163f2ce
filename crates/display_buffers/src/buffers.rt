//! The table of a device's display buffers.

ghost use Rattle.std.specs.Prelude.{◌≡◌, ℕ, ◌+◌, ◌<◌, ◌≤◌, [], length, slice_get, Some, IfOk, IfSome, IsSomeAnd, option_map, Ok, true};
ghost use Rattle.display_buffers.specs.Buffers.{AreSound, buffer_of, check_of, is_in_range, with_buffer, without_buffer};
ghost use Rattle.display_buffers.specs.Pixels.{octet_place, page_count};

use crate::live::Live;
use crate::pixels::place_of;
use crate::range::is_valid;
use cookie_table::{TABLE_LIMIT, Table};
use displ_wire::{Buffer, Create, Refused};
use pv_words::{PageList, Place};
use std::alloc::{AllocError, Global};
use std::marker::Model;

/// The live display buffers of a device, in order of creation. The room for 64 of them is taken when the table is
/// made.
#[derive(Drop)]
pub struct Buffers<P: PageList + Drop> {
    table: Table<Live<P>>,
}

impl<P: PageList + Drop> Model for Buffers<P> {
    ghost use Rattle.std.specs.Prelude.{List};
    ghost use Rattle.std.specs.List.{AllByRecursion};
    ghost use Rattle.display_buffers.specs.declared.live.Live.{Live};
    ghost use Rattle.display_buffers.specs.Pixels.{IsWhole};

    ghost Value = { List (Live P) };

    ghost view = { λ b. b.table };

    ghost invariant = { λ b. AllByRecursion (IsWhole P.holds) b.table };
}

impl<P: PageList + Drop> Buffers<P> {
    /// A table with no buffer, and with the room for 64.
    pub fn new(alloc: Global) -> Result<Buffers<P>, AllocError>
        ensures { IfOk result (λ bs. bs ≡ []) }
    {
        let table = Table::new(alloc)?;
        Ok(Buffers { table })
    }

    /// How many buffers are live, at most 64.
    pub fn live(&self) -> u32
        ensures count { result ≡ length self.now }
        ensures sound { AreSound self.now }
    {
        self.table.len()
    }

    /// The first check of a CREATE that fails, of those that need no memory and no page: its flags ask for pages of the
    /// backend's own (NotSupported), its cookie is live (Exists), 64 buffers are live (Full), or its depth, a side or
    /// its size is out of range, or its pixels don't fit in it (Invalid).
    pub fn check(&self, c: &Create) -> Result<(), Refused>
        ensures { result ≡ check_of self.now c.now }
    {
        if c.flags != 0 {
            return Err(Refused::NotSupported);
        }
        if self.table.get(c.dbuf_cookie).is_some() {
            return Err(Refused::Exists);
        }
        if self.table.len() >= TABLE_LIMIT {
            return Err(Refused::Full);
        }
        if !is_valid(c) {
            return Err(Refused::Invalid);
        }
        Ok(())
    }

    /// Makes the buffer that a CREATE asks for, of these pages.
    pub fn create(&mut self, c: &Create, pages: P)
        requires checked { check_of self.old c.now ≡ Ok tt }
        requires whole { length (P.holds pages) ≡ page_count c.now.buffer_sz }
        ensures { self.new ≡ with_buffer self.old c.now pages }
    {
        let buffer = Buffer {
            cookie: c.dbuf_cookie,
            width: c.width,
            height: c.height,
            bpp: c.bpp,
            buffer_sz: c.buffer_sz,
        };
        self.table.push(Live { buffer, pages });
    }

    /// Takes a buffer away, and gives its pages back; None where the cookie isn't live.
    pub fn destroy(&mut self, cookie: u64) -> Option<P>
        ensures pages { result ≡ option_map (λ b. b.pages) (buffer_of cookie self.old) }
        ensures rest { self.new ≡ without_buffer cookie self.old }
    {
        let live = self.table.remove(cookie)?;
        Some(live.pages)
    }

    /// Takes all buffers away.
    pub fn clear(&mut self)
        ensures { self.new ≡ [] }
    {
        self.table.clear();
    }

    /// The buffer of a cookie; None where the cookie isn't live.
    pub fn get(&self, cookie: u64) -> Option<Buffer>
        ensures value { result ≡ option_map (λ b. b.buffer) (buffer_of cookie self.now) }
        ensures in_range { IfSome result (λ b. is_in_range b ≡ true) }
    {
        Some(self.table.get(cookie)?.buffer)
    }

    /// The word that has this octet of a live buffer. The octet lies in the buffer.
    pub fn pixel_place(&self, cookie: u64, octet: u32) -> Place
        requires { IsSomeAnd (buffer_of cookie self.now) (λ b. octet < b.buffer.buffer_sz) }
        ensures { IsSomeAnd (buffer_of cookie self.now) (λ b. octet_place (P.holds b.pages) octet ≡ Some result) }
    {
        let Some(live) = self.table.get(cookie) else {
            unreachable!();
        };
        place_of(&live.pages, octet)
    }

    /// The cookie of the `k`-th live buffer, in order of creation from 0.
    pub fn cookie_at(&self, k: u32) -> u64
        requires { k < length self.now }
        ensures { option_map (λ b. b.buffer.cookie) (slice_get self.now k) ≡ Some result }
    {
        self.table.nth(k).buffer.cookie
    }

    /// The pages of the `k`-th live buffer, in order of creation from 0.
    pub fn pages_at(&self, k: u32) -> &P
        requires { k < length self.now }
        ensures { option_map (λ b. b.pages) (slice_get self.now k) ≡ Some result.now }
    {
        &self.table.nth(k).pages
    }
}
